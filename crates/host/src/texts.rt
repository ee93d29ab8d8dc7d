// The refusals' texts, for programs in other languages.
ghost use Rattle.std.specs.Prelude.{◌≡◌, ◌≤◌, replicate};
ghost use Rattle.host.specs.Texts.{all_texts, text_starts, Texted, TextCrossing};

use gtb::Refusal;

// The texts by number, one behind the other.
fn texts() -> [u8; 984]
    ensures { result ≡ all_texts }
{
    *b"\
        shape: q, n, b or the way of reading is outside its list\
        length: a list does not have its length\
        width: a digit is 2^b or more\
        damage: no clean damage to at most n - 1 digits explains the word\
        page: the page number is 1024 or more\
        count: there are more marks than a page holds\
        function: a function number is above 255\
        tail: a digit after the last mark is not zero\
        worn: a count would pass 2^32 - 1\
        text: a line is malformed\
        figures: the session's two figures are not what its page numbers say\
        places: they are not strictly rising, or one is outside the word\
        unfillable: no stored word has the digits at the other places\
        ambiguous: more than one stored word has the digits at the other places\
        no majority: no stored word differs in at most n / 2 digits\
        directions: two are too few to tell two wrong digits\
        beyond two: no stored word differs in at most two digits\
        slope: a slope is not below q, or stands twice\
        bill: the sum is above 2^64 - 1 thousandths of a picojoule\
        far: no stored word is within reach"
}

// Where each text starts, and where the last one ends. That of 0, which is no refusal, is empty.
fn starts() -> [u16; 22]
    ensures { result ≡ text_starts }
{
    [
        0, 0, 56, 95, 124, 189, 226, 271, 311, 356, 389, 414, 482, 546, 607, 678, 737, 789, 845,
        891, 949, 984,
    ]
}

// Puts the text at the front of zeros, and answers its length.
fn put(refusal: u32, text: &mut [u8]) -> u32
    requires { (refusal ≤ 20) × (text.old ≡ replicate 96 0) }
    ensures { Texted refusal text.new result }
{
    let all = texts();
    let starts = starts();
    let at = refusal as usize;
    let from = starts[at] as usize;
    let to = starts[at + 1] as usize;
    lines::put_text(text, 0, &all[from..to]) as u32
}

// The text of the refusal with this number on 96 bytes, with zeros behind it, and its length.
pub fn shaftglimmer_text(refusal: u32, text: &mut [u8]) -> u32
    ensures { TextCrossing refusal text.old text.new result }
{
    if text.len() != 96 {
        return gtb::number::refused(Refusal::Length);
    }
    text.fill(0);
    if refusal > 20 {
        return 0;
    }
    put(refusal, text)
}
