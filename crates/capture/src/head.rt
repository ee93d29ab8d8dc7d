// Lines that are no word lines: the first three, and what follows a fault.
ghost use Rattle.std.specs.Prelude.{false, ◌≡◌, ◌<◌, length};
ghost use Rattle.lines.specs.Content.{content_of};
ghost use Rattle.session.specs.Session.{fresh_status};
ghost use Rattle.capture.specs.Judge.{fault_in, passed, fault, named, begun, shaped, judged_of, is_words};

use crate::{Answer, Expected, Fault, Judged, Phase, Tally};
use gtb::{Refusal, Shape};
use session::Session;

// The line is not what was expected.
fn fault_in(expected: Expected, line: &[u8]) -> Fault
    ensures { result ≡ fault_in expected line.now }
{
    Fault {
        expected,
        marked: line.starts_with(b"\xef\xbb\xbf"),
        returned: line.ends_with(b"\r"),
    }
}

// No output; the next line is looked at in this phase.
fn pass(phase: Phase, session: Session) -> Judged
    ensures { result ≡ passed phase session }
{
    Judged {
        tally: Tally { phase, session },
        answer: Answer::Nothing,
    }
}

// A fault of the first three lines ends the program.
fn fail(session: Session, wrong: Fault, refusal: Refusal) -> Judged
    ensures { result ≡ fault session wrong refusal }
{
    Judged {
        tally: Tally {
            phase: Phase::Ended(wrong),
            session,
        },
        answer: Answer::Head(refusal),
    }
}

// A line of names.
fn take_names(session: Session, right: bool, next: Phase, wrong: Fault) -> Judged
    ensures { result ≡ named session right next wrong }
{
    if right {
        return pass(next, session);
    }
    fail(session, wrong, Refusal::Syntax)
}

// A session of the shape of line 2, or a fault.
fn start_session(session: Session, shape: Shape, wrong: Fault) -> Judged
    ensures { result ≡ begun session shape (fresh_status shape) wrong }
{
    match Session::fresh(shape) {
        Ok(fresh) => pass(Phase::WordNames, fresh),
        Err(e) => fail(session, wrong, e.refusal),
    }
}

// Line 2: three values.
fn take_shape(session: Session, line: &[u8]) -> Judged
    ensures { result ≡ shaped session line.now (content_of line.now) }
{
    let mut values = [0u32; 1024];
    let malformed = fault_in(Expected::ShapeValues, line);
    let Some(count) = lines::parse(line, &mut values) else {
        return fail(session, malformed, Refusal::Syntax);
    };
    if count != 3 {
        return fail(session, malformed, Refusal::Syntax);
    }
    let shape = Shape {
        q: values[0],
        n: values[1],
        b: values[2],
        slopes: gtb::STANDARD,
    };
    start_session(session, shape, fault_in(Expected::Shape, line))
}

// A line that is no word line. Of a word line there is nothing to do here.
pub fn take_head(tally: Tally, line: &[u8]) -> Judged
    requires { (is_words tally.phase ≡ false) × (length line.now < 16384) }
    ensures { result ≡ judged_of tally line.now }
{
    let session = tally.session;
    match tally.phase {
        Phase::ShapeNames => {
            let wrong = fault_in(Expected::ShapeNames, line);
            take_names(
                session,
                lines::is_shape_names(line),
                Phase::ShapeValues,
                wrong,
            )
        }
        Phase::ShapeValues => take_shape(session, line),
        Phase::WordNames => {
            let wrong = fault_in(Expected::WordNames, line);
            take_names(session, lines::is_word_names(line), Phase::Words, wrong)
        }
        Phase::Words => pass(Phase::Words, session),
        Phase::Ended(wrong) => pass(Phase::Ended(wrong), session),
    }
}
