// What is said at the end, and where the program can't go on.
ghost use Rattle.std.specs.Prelude.{cond, [], ◌++◌, ◌≡◌, ◌+◌, ◌≤◌, length};
ghost use Rattle.program.specs.Shown.{summary_text};
ghost use Rattle.program.specs.Said.{line_of, expected_text, noted_text, fault_text, blame_text, complaint_text, unknown_text, too_many_text};
ghost use Rattle.program.specs.Moves.{ending_of};

use crate::{State, Text};
use capture::{Counts, Expected, Fault, Phase, Reader};

// What should stand in the line at fault.
fn expected_text(expected: Expected) -> &'static [u8]
    ensures { (result.now ≡ expected_text expected) × (length result.now ≤ 121) }
{
    match expected {
        Expected::ShapeNames => b"tally: line 1: expected 'q n b'\n",
        Expected::ShapeValues => b"tally: line 2: expected the three values of q, n and b\n",
        Expected::Shape => {
            b"tally: line 2: expected q one of 3, 5, 7, 11, 13, 17, 19, 23, 29, 31, \
            n from 2 to the smaller of q and 8, b from 1 to 32\n"
        }
        Expected::WordNames => b"tally: line 3: expected 'word'\n",
    }
}

// The number of the line at fault.
fn line_number(expected: Expected) -> u32
    ensures { result ≡ line_of expected }
{
    match expected {
        Expected::ShapeNames => 1,
        Expected::ShapeValues | Expected::Shape => 2,
        Expected::WordNames => 3,
    }
}

// What else there is to say of a line, where it is so.
fn put_noted(text: &mut Text, wanted: bool, number: u32, words: &[u8])
    requires { length text.old + 22 + length words.now ≤ 400 }
    ensures { (text.new ≡ text.old ++ cond wanted (noted_text number words.now) []) × (length text.new ≤ length text.old + 22 + length words.now) }
{
    if wanted {
        text.put(b"tally: line ");
        text.put_numbered(number, words);
    }
}

// What is wrong with a line.
fn put_fault(text: &mut Text, fault: Fault)
    requires { length text.old + 225 ≤ 400 }
    ensures { (text.new ≡ text.old ++ fault_text fault) × (length text.new ≤ length text.old + 225) }
{
    let number = line_number(fault.expected);
    text.put(expected_text(fault.expected));
    put_noted(
        text,
        fault.marked,
        number,
        b" begins with a byte order mark\n",
    );
    put_noted(
        text,
        fault.returned,
        number,
        b" ends with a carriage return\n",
    );
}

// Which of the first three lines is at fault or missing, by the line that is next.
fn put_blame(text: &mut Text, phase: Phase)
    requires { length text.old + 225 ≤ 400 }
    ensures { (text.new ≡ text.old ++ blame_text phase) × (length text.new ≤ length text.old + 225) }
{
    match phase {
        Phase::ShapeNames => text.put(expected_text(Expected::ShapeNames)),
        Phase::ShapeValues => text.put(expected_text(Expected::ShapeValues)),
        Phase::WordNames => text.put(expected_text(Expected::WordNames)),
        Phase::Words => {}
        Phase::Ended(fault) => put_fault(text, fault),
    }
}

// The answers by kind, where there is a person.
fn put_summary(text: &mut Text, person: bool, counts: Counts)
    requires { length text.old + 60 ≤ 400 }
    ensures { text.new ≡ text.old ++ cond person (summary_text counts) [] }
{
    if person {
        text.put_numbered(counts.taken, b" taken, ");
        text.put_numbered(counts.again, b" again, ");
        text.put_numbered(counts.refused, b" refused\n");
    }
}

// What is said at the end: nothing to a script, unless the limit was reached or the first three lines are at fault.
pub fn ending(state: State, reader: Reader) -> Text
    ensures { result ≡ ending_of state reader.tally.phase reader.counts }
{
    let mut text = Text::new();
    text.put_if(state.watch.drawn, b"\r\x1b[K");
    text.put_if(
        state.input.left == 0,
        b"tally: 4294967295 bytes read, the most that are read; what follows counts as absent\n",
    );
    put_blame(&mut text, reader.tally.phase);
    put_summary(&mut text, state.watch.error, reader.counts);
    text
}

// The beginning of a complaint.
pub fn complaint(drawn: bool) -> Text
    ensures { result ≡ complaint_text drawn }
{
    let mut text = Text::new();
    text.put_if(drawn, b"\r\x1b[K");
    text.put(b"tally: ");
    text
}

// The end of the complaint about an option that there is not.
pub fn unknown() -> [u8; 51]
    ensures { result ≡ unknown_text }
{
    *b": no such option; tally --help says how it is used\n"
}

// The end of the complaint about a second argument.
pub fn too_many() -> [u8; 58]
    ensures { result ≡ too_many_text }
{
    *b": one argument too many; tally --help says how it is used\n"
}
