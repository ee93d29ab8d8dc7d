// A line judged, by what the look at it told.
ghost use Rattle.std.specs.Prelude.{◌≡◌, ◌<◌, length};
ghost use Rattle.session.specs.Session.{Consistent};
ghost use Rattle.session.specs.Arrival.{Opened};
ghost use Rattle.session.specs.Steps.{Functions};
ghost use Rattle.capture.specs.Judge.{arrived};
ghost use Rattle.capture.specs.Steps.{foreseen, Settleable};

use crate::head::take_head;
use crate::{Answer, Judged, Phase, Seen, Tally};
use session::Session;

// A page that is new.
fn take_page(session: Session, number: u32, corrected: u32, marks: &[u32]) -> Judged
    requires { Consistent session × (number < 1024) × Functions marks.now }
    ensures { result ≡ arrived session (Opened.Page number marks.now corrected) }
{
    let arrived = session.settled(number, corrected, marks);
    Judged {
        tally: Tally {
            phase: Phase::Words,
            session: arrived.session,
        },
        answer: Answer::Word(arrived.outcome),
    }
}

// The session's figures are right, so that no word pays for their test.
pub fn judge(tally: Tally, seen: Seen, line: &[u8], symbols: &[u32]) -> Judged
    requires { Consistent tally.session × (length line.now < 16384) × Settleable tally.phase seen symbols.now }
    ensures { result ≡ foreseen tally line.now symbols.now seen }
{
    match seen {
        Seen::Known(outcome) => Judged {
            tally,
            answer: Answer::Word(outcome),
        },
        Seen::New(page) => {
            let end = 2 + page.count as usize;
            take_page(tally.session, page.number, page.corrected, &symbols[2..end])
        }
        Seen::Head => take_head(tally, line),
    }
}
