// A look at a line without moving the session. Most word lines leave it as it is: a page is taken once, so that at most 1024 of them do not.
ghost use Rattle.std.specs.Prelude.{◌≡◌, List, ℕ, ◌<◌, length, take};
ghost use Rattle.lines.specs.Content.{content_of};
ghost use Rattle.lines.specs.Parse.{Stored};
ghost use Rattle.session.specs.Steps.{Tells};
ghost use Rattle.capture.specs.Judge.{brought_by};
ghost use Rattle.capture.specs.Steps.{Looked, Foretold};

use crate::{Phase, Seen, Tally};
use gtb::size::{info_length, word_length};
use gtb::{Refusal, Shape};
use session::open::open;
use session::way::Way;
use session::{Brought, Outcome, Session};

// What the values of a line bring, read the clean way: tests 1, 18 and 2, then the first step.
fn open_values(
    shape: Shape,
    values: &mut [u32],
    count: usize,
    symbols: &mut [u32],
) -> Result<Brought, Refusal>
    requires { (length values.old ≡ 1024) × (length symbols.old ≡ 900) }
    ensures { (line : List ℕ) → Stored line values.old count → Tells (brought_by shape (content_of line)) symbols.new result }
{
    if !gtb::is_lawful(shape) {
        return Err(gtb::shape_refusal(shape));
    }
    if count != word_length(shape) {
        return Err(Refusal::Length);
    }
    let info = info_length(shape);
    match open(
        shape,
        Way::Clean,
        &mut values[..count],
        &mut symbols[..info],
    ) {
        Ok(page) => Ok(page),
        Err(unopened) => Err(unopened.refusal),
    }
}

// What a word line brings.
fn open_line(
    shape: Shape,
    line: &[u8],
    values: &mut [u32; 1024],
    symbols: &mut [u32],
) -> Result<Brought, Refusal>
    requires { (length values.old ≡ 1024) × (length symbols.old ≡ 900) }
    ensures { Tells (brought_by shape (content_of line.now)) symbols.new result × (length values.new ≡ 1024) }
{
    let Some(count) = lines::parse(line, values) else {
        return Err(Refusal::Syntax);
    };
    open_values(shape, values, count, symbols)
}

// A word line: refused, marked, or a page that is new.
fn look(
    shape: Shape,
    taken: &[bool; Session::PAGES],
    line: &[u8],
    values: &mut [u32; 1024],
    symbols: &mut [u32],
) -> Seen
    requires { (length values.old ≡ 1024) × (length symbols.old ≡ 900) }
    ensures { Looked shape taken.now line.now symbols.new result × (length values.new ≡ 1024) }
{
    match open_line(shape, line, values, symbols) {
        Err(e) => Seen::Known(Outcome::Refused(e)),
        Ok(page) => {
            if taken[page.number as usize] {
                return Seen::Known(Outcome::Again(page.number, page.corrected));
            }
            Seen::New(page)
        }
    }
}

// The first bytes of the line's buffer. The page marks are lent beside the tally: of that only the phase and the shape are read, so that it is not copied.
pub fn glance(
    tally: Tally,
    taken: &[bool; Session::PAGES],
    line: &[u8],
    end: usize,
    values: &mut [u32; 1024],
    symbols: &mut [u32],
) -> Seen
    requires { (tally.session.taken ≡ taken.now) × (length line.now ≡ 16384) × (end < 16384) × (length values.old ≡ 1024) × (length symbols.old ≡ 900) }
    ensures { Foretold tally (take end line.now) symbols.new result × (length values.new ≡ 1024) }
{
    match tally.phase {
        Phase::Words => look(tally.session.shape, taken, &line[..end], values, symbols),
        _ => Seen::Head,
    }
}
