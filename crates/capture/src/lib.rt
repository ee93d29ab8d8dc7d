// The tally program without its input and output: a capture comes in blocks of bytes, and text goes out.
#![tactic(auto)]

mod counting;
mod glance;
mod head;
mod judge;
mod output;

ghost use Rattle.std.specs.Prelude.{◌≡◌, ◌+◌, ◌<◌, ◌≤◌, length, take};
ghost use Rattle.session.specs.Session.{Consistent};
ghost use Rattle.capture.specs.Feed.{is_ended, read_limit};
ghost use Rattle.capture.specs.Steps.{Foretold, End, Begun, Extended, LineEnded, BlockTaken, Finished};

use crate::counting::{count_answer, count_outcome};
use crate::glance::glance;
use crate::judge::judge;
use crate::output::{last_answer, put_answer, put_line, put_table};
use gtb::{Refusal, Shape};
use session::{Brought, Outcome, Session};

// What should stand in one of the first three lines. `Shape` where line 2 has three values.
#[derive(Clone, Copy)]
pub enum Expected {
    ShapeNames,
    ShapeValues,
    Shape,
    WordNames,
}

// One of the first three lines is at fault. `marked`: it begins with a byte order mark. `returned`: it ends with a carriage return.
#[derive(Clone, Copy)]
pub struct Fault {
    pub expected: Expected,
    pub marked: bool,
    pub returned: bool,
}

// Which line is next: the first three, a word line, or none any more after a fault.
#[derive(Clone, Copy)]
pub enum Phase {
    ShapeNames,
    ShapeValues,
    WordNames,
    Words,
    Ended(Fault),
}

#[derive(Clone, Copy)]
pub struct Tally {
    pub phase: Phase,
    pub session: Session,
}

// What a line is answered with: nothing, the outcome of a word line, or the refusal of one of the first three.
#[derive(Clone, Copy)]
pub enum Answer {
    Nothing,
    Word(Outcome),
    Head(Refusal),
}

#[derive(Clone, Copy)]
pub struct Judged {
    pub tally: Tally,
    pub answer: Answer,
}

// What a look at a line tells: the outcome, where that leaves the tally as it is; a page that is new; or that it is no word line.
#[derive(Clone, Copy)]
enum Seen {
    Known(Outcome),
    New(Brought),
    Head,
}

// Answers to words by kind. A number that is full stays so.
#[derive(Clone, Copy)]
pub struct Counts {
    pub taken: u32,
    pub again: u32,
    pub refused: u32,
}

// The tally, the length of the line so far, the length of the output that waits, and the answers so far. A line too long counts as 16,384.
// Kept as it is: a reader is passed by value, so that the bytes of the line and of the output are lent beside it, as `BlockTaken` and `Finished` say.
#[derive(Clone, Copy)]
pub struct Reader {
    pub tally: Tally,
    pub held: usize,
    pub at: usize,
    pub counts: Counts,
}

// At most so many bytes are read; what follows counts as absent.
pub fn limit() -> usize
    ensures { result ≡ read_limit }
{
    4294967295
}

// Before the first line. The first name line waits.
pub fn begin(out: &mut [u8]) -> Reader
    requires { 19 ≤ length out.old }
    ensures { Begun out.old out.new result }
{
    let shape = Shape {
        q: 0,
        n: 0,
        b: 0,
        slopes: gtb::STANDARD,
    };
    let tally = Tally {
        phase: Phase::ShapeNames,
        session: Session::blank(shape),
    };
    let at = lines::put_outcome_names(out, 0);
    Reader {
        tally,
        held: 0,
        at,
        counts: Counts {
            taken: 0,
            again: 0,
            refused: 0,
        },
    }
}

// Adds bytes to the line so far. Of a line too long only that is known.
fn append(line: &mut [u8], held: usize, bytes: &[u8]) -> usize
    requires { length line.old ≡ 16384 }
    ensures { Extended line.old held bytes.now line.new result }
{
    if held.saturating_add(bytes.len()) > 16383 {
        return 16384;
    }
    lines::put_text(line, held, bytes)
}

// How much of the line so far is judged. One too long is malformed, as an empty one is.
fn line_end(held: usize) -> usize
    ensures { End held result }
{
    if held < 16384 { held } else { 0 }
}

// Judges the line, writes the answer and counts it.
fn end_line(
    reader: Reader,
    seen: Seen,
    line: &[u8],
    end: usize,
    symbols: &[u32],
    out: &mut [u8],
) -> Reader
    requires { Consistent reader.tally.session × (length line.now ≡ 16384) × (end < 16384) × Foretold reader.tally (take end line.now) symbols.now seen × (reader.at + 40 ≤ length out.old) }
    ensures { LineEnded reader line.now end out.old out.new result }
{
    let judged = judge(reader.tally, seen, &line[..end], symbols);
    Reader {
        tally: judged.tally,
        held: 0,
        at: put_answer(out, reader.at, judged.answer),
        counts: count_answer(reader.counts, judged.answer),
    }
}

// Takes a block. Its answers are written to `out` from `at` on, which has room for them: 30 bytes for each byte of the block.
pub fn take_block(
    reader: Reader,
    at: usize,
    block: &[u8],
    line: &mut [u8],
    out: &mut [u8],
) -> Reader
    requires { Consistent reader.tally.session × (length block.now ≤ 16384) × (length line.old ≡ 16384) × (at + 491560 ≤ length out.old) }
    ensures { BlockTaken reader at line.old block.now out.old line.new out.new result }
{
    let mut reader = reader;
    reader.at = at;
    let mut values = [0u32; 1024];
    let mut symbols = [0u32; 900];
    let mut rest = block;
    while let Some(size) = lines::find_newline(rest) {
        reader.held = append(line, reader.held, &rest[..size]);
        rest = &rest[size + 1..];
        let end = line_end(reader.held);
        let taken = &reader.tally.session.taken;
        let seen = glance(reader.tally, taken, line, end, &mut values, &mut symbols);
        if let Seen::Known(outcome) = seen {
            reader.held = 0;
            reader.at = put_line(out, reader.at, outcome);
            reader.counts = count_outcome(reader.counts, outcome);
            continue;
        }
        reader = end_line(reader, seen, line, end, &symbols, out);
    }
    reader.held = append(line, reader.held, rest);
    reader
}

// A fault was answered: nothing more will be.
pub fn has_ended(reader: Reader) -> bool
    ensures { result ≡ is_ended reader.tally.phase }
{
    matches!(reader.tally.phase, Phase::Ended(_))
}

// The output at the end of the input, from `at` on.
pub fn finish(reader: Reader, at: usize, out: &mut [u8]) -> Reader
    requires { at + 5687 ≤ length out.old }
    ensures { Finished reader at out.old out.new result }
{
    let tally = reader.tally;
    let answer = last_answer(tally.phase, reader.held == 0);
    let next = put_answer(out, at, answer);
    let end = put_table(out, next, tally.phase, tally.session);
    Reader {
        at: end,
        counts: count_answer(reader.counts, answer),
        ..reader
    }
}
