// The house text form (RULES 7): one line of input to numbers, one answer to bytes.
#![tactic(auto)]

ghost use Rattle.std.specs.Prelude.{◌≡◌, [], ◌∷◌, ◌+◌, ◌≤◌, length, set};
ghost use Rattle.lines.specs.Text.{decimal, same_bytes, names_shape, names_word, names_outcome, names_calls, outcome_name, outcome_text, count_text, Put};
ghost use Rattle.lines.specs.Parse.{Parsing, first_newline};
ghost use Rattle.lines.specs.Scan.{DigitAt, Scanning};

// What came of a word.
#[derive(Clone, Copy)]
pub enum Kind {
    Taken,
    Again,
    Refused,
}

// The digit that stands at a place, if there is one.
fn digit_at(line: &[u8], at: usize) -> Option<u32>
    ensures { DigitAt line.now at result }
{
    let byte = line.get(at)?;
    (*byte as char).to_digit(10)
}

// The value that stands at `from`, with no digit after it, and the place after it.
fn number_at(line: &[u8], from: usize) -> Option<(u32, usize)>
    requires { from ≤ length line.now }
    ensures { Scanning line.now from result }
{
    let first = digit_at(line, from)?;
    let mut value = first as u64;
    let mut at = from + 1;
    // A u64 and one test: by `checked_mul` and `checked_add` of u32 the program takes 1.4 times as long on long values.
    while let Some(digit) = digit_at(line, at) {
        if value == 0 {
            return None; // a leading zero
        }
        value = value * 10 + digit as u64;
        if value > 4294967295 {
            return None; // too large
        }
        at += 1;
    }
    Some((value as u32, at))
}

// Stores the value if there is a place for it.
fn store(values: &mut [u32; 1024], at: usize, value: u32)
    requires { length values.old ≡ 1024 }
    ensures { values.new ≡ set values.old at value }
{
    if at < 1024 {
        values[at] = value;
    }
}

// Reads the values of a line, which comes without its newline, and answers their number. Those beyond 1024 are counted and not stored.
// A malformed line, one with no values in the house form, gives None.
pub fn parse(line: &[u8], values: &mut [u32; 1024]) -> Option<usize>
    requires { length values.old ≡ 1024 }
    ensures { Parsing line.now values.new result }
{
    let mut count: usize = 0;
    let mut from: usize = 0;
    loop {
        let (value, next) = number_at(line, from)?;
        store(values, count, value);
        count += 1;
        if next == line.len() {
            return Some(count);
        }
        if line[next] != b' ' {
            return None; // neither the end nor a space
        }
        from = next + 1;
    }
}

// Whether the bytes are the text.
pub fn is_text(bytes: &[u8], text: &[u8]) -> bool
    ensures { result ≡ same_bytes bytes.now text.now }
{
    bytes == text
}

pub fn is_shape_names(line: &[u8]) -> bool
    ensures { result ≡ same_bytes line.now names_shape }
{
    is_text(line, b"q n b")
}

pub fn is_word_names(line: &[u8]) -> bool
    ensures { result ≡ same_bytes line.now names_word }
{
    is_text(line, b"word")
}

// The first place with a newline.
pub fn find_newline(bytes: &[u8]) -> Option<usize>
    ensures { result ≡ first_newline bytes.now }
{
    bytes.iter().position(|b| *b == b'\n')
}

// Writes the text over `out` from `at` on, and answers the place after it.
#[tactic(auto, using(crate::proofs::Pasting::copied))]
pub fn put_text(out: &mut [u8], at: usize, text: &[u8]) -> usize
    requires { at + length text.now ≤ length out.old }
    ensures { Put out.old at text.now out.new result }
{
    let end = at + text.len();
    out[at..end].copy_from_slice(text);
    end
}

#[tactic(auto, using(crate::proofs::Pasting::put_one))]
fn put_byte(out: &mut [u8], at: usize, byte: u8) -> usize
    requires { at + 1 ≤ length out.old }
    ensures { Put out.old at (byte ∷ []) out.new result }
{
    out[at] = byte;
    at + 1
}

// The digits of a number: those of a tenth of it first.
fn put_digits(out: &mut [u8], at: usize, value: u32) -> usize
    requires { at + length (decimal value) ≤ length out.old }
    ensures { Put out.old at (decimal value) out.new result }
{
    if value < 10 {
        return put_byte(out, at, b'0' + value as u8);
    }
    let last = put_digits(out, at, value / 10);
    put_byte(out, last, b'0' + (value % 10) as u8)
}

#[tactic(auto, using(crate::proofs::Decimals::at_most_ten))]
pub fn put_number(out: &mut [u8], at: usize, value: u32) -> usize
    requires { at + 10 ≤ length out.old }
    ensures { Put out.old at (decimal value) out.new result × (result ≤ at + 10) }
{
    put_digits(out, at, value)
}

// A line of the output's second table.
pub fn put_count(out: &mut [u8], at: usize, function: u32, calls: u32) -> usize
    requires { at + 22 ≤ length out.old }
    ensures { Put out.old at (count_text function calls) out.new result × (result ≤ at + 22) }
{
    let a = put_number(out, at, function);
    let b = put_byte(out, a, b' ');
    let c = put_number(out, b, calls);
    put_byte(out, c, b'\n')
}

// The outcome's name.
#[tactic(auto, unfolding(crate::specs::Text::outcome_name))]
fn put_kind(out: &mut [u8], at: usize, kind: Kind) -> usize
    requires { at + 7 ≤ length out.old }
    ensures { Put out.old at (outcome_name kind) out.new result × (result ≤ at + 7) }
{
    match kind {
        Kind::Taken => put_text(out, at, b"taken"),
        Kind::Again => put_text(out, at, b"again"),
        Kind::Refused => put_text(out, at, b"refused"),
    }
}

// A line of the output's first table.
pub fn put_outcome(out: &mut [u8], at: usize, kind: Kind, number: u32, fixed: u32) -> usize
    requires { at + 30 ≤ length out.old }
    ensures { Put out.old at (outcome_text kind number fixed) out.new result × (result ≤ at + 30) }
{
    let a = put_kind(out, at, kind);
    let b = put_byte(out, a, b' ');
    put_count(out, b, number, fixed)
}

pub fn put_outcome_names(out: &mut [u8], at: usize) -> usize
    requires { at + 19 ≤ length out.old }
    ensures { Put out.old at names_outcome out.new result }
{
    put_text(out, at, b"outcome page fixed\n")
}

pub fn put_calls_names(out: &mut [u8], at: usize) -> usize
    requires { at + 15 ≤ length out.old }
    ensures { Put out.old at names_calls out.new result }
{
    put_text(out, at, b"function calls\n")
}
