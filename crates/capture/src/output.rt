// Answers as text at the end of the output that waits.
ghost use Rattle.std.specs.Prelude.{◌≡◌, ◌+◌, ◌≤◌, length};
ghost use Rattle.capture.specs.Output.{outcome_line, answer_text, calls_from, calls_text};
ghost use Rattle.capture.specs.Feed.{last_in, table_in};
ghost use Rattle.capture.specs.Steps.{Appended};

use crate::{Answer, Phase};
use gtb::Refusal;
use lines::Kind;
use session::{Outcome, Session};

pub fn put_line(out: &mut [u8], at: usize, outcome: Outcome) -> usize
    requires { at + 40 ≤ length out.old }
    ensures { Appended out.old at (outcome_line outcome) out.new result × (result ≤ at + 30) }
{
    match outcome {
        Outcome::Taken(page, fixed) => lines::put_outcome(out, at, Kind::Taken, page, fixed),
        Outcome::Again(page, fixed) => lines::put_outcome(out, at, Kind::Again, page, fixed),
        Outcome::Refused(e) => lines::put_outcome(out, at, Kind::Refused, u32::from(e), 0),
    }
}

pub fn put_answer(out: &mut [u8], at: usize, answer: Answer) -> usize
    requires { at + 40 ≤ length out.old }
    ensures { Appended out.old at (answer_text answer) out.new result × (result ≤ at + 30) }
{
    match answer {
        Answer::Nothing => at,
        Answer::Word(outcome) => put_line(out, at, outcome),
        Answer::Head(e) => put_line(out, at, Outcome::Refused(e)),
    }
}

// The counts above zero, in rising order.
fn put_counts(out: &mut [u8], at: usize, calls: &[u32; Session::FUNCTIONS]) -> usize
    requires { at + 5632 ≤ length out.old }
    ensures { Appended out.old at (calls_from 0 calls.now) out.new result × (result ≤ at + 5632) }
{
    let mut next = at;
    for (f, k) in calls.iter().enumerate() {
        if *k != 0 {
            next = lines::put_count(out, next, f as u32, *k);
        }
    }
    next
}

// The second table.
fn put_calls(out: &mut [u8], at: usize, session: Session) -> usize
    requires { at + 5647 ≤ length out.old }
    ensures { Appended out.old at (calls_text session.calls) out.new result × (result ≤ at + 5647) }
{
    let next = lines::put_calls_names(out, at);
    put_counts(out, next, &session.calls)
}

// The answer at the end of the input, where one of the first three lines is missing or the last line has no newline; `whole` says that no line was begun.
pub fn last_answer(phase: Phase, whole: bool) -> Answer
    ensures { result ≡ last_in phase whole }
{
    match phase {
        Phase::ShapeNames | Phase::ShapeValues | Phase::WordNames => Answer::Head(Refusal::Syntax),
        Phase::Words if !whole => Answer::Word(Outcome::Refused(Refusal::Syntax)),
        Phase::Words | Phase::Ended(_) => Answer::Nothing,
    }
}

// The second table comes once word lines are read.
pub fn put_table(out: &mut [u8], at: usize, phase: Phase, session: Session) -> usize
    requires { at + 5647 ≤ length out.old }
    ensures { Appended out.old at (table_in phase session.calls) out.new result × (result ≤ at + 5647) }
{
    match phase {
        Phase::Words => put_calls(out, at, session),
        _ => at,
    }
}
