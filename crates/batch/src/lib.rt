// A bundle of words: the arrivals of a whole run in one call.
#![tactic(auto)]

ghost use Rattle.std.specs.Prelude.{◌≡◌, length};
ghost use Rattle.gtb.specs.Shape.{Lawful, word_length, info_length};
ghost use Rattle.session.specs.Arrival.{way_of};
ghost use Rattle.session.specs.Named.{number_of, Admits};
ghost use Rattle.session.specs.Steps.{Openable};
ghost use Rattle.batch.specs.Batch.{whole_run, batch_status, Arrivals, Batching};
ghost use Rattle.batch.specs.Steps.{Tested, Looked};

use gtb::size::{info_length, scratch_length, word_length};
use gtb::{Refusal, Shape};
use session::open::open_kept;
use session::way::Way;
use session::{Brought, Outcome, Session};

// A run has at most so many words.
pub const WORDS: usize = 64;

// The length of the list of outcomes: three values a word.
pub const OUTCOMES: usize = 192;

// The session after the run beside the answer to the whole call.
#[derive(Clone, Copy)]
pub struct Delivered {
    pub session: Session,
    pub status: Result<(), Refusal>,
}

// A run of 1 to 64 whole words.
fn is_run(shape: Shape, words: &[u32]) -> bool
    requires { Lawful shape }
    ensures { result ≡ whole_run shape words.now }
{
    let size = word_length(shape);
    if words.len() % size != 0 {
        return false;
    }
    let count = words.len() / size;
    if count == 0 {
        return false;
    }
    count <= WORDS
}

// The tests for the whole call: those of an arrival, then 2. They are passed by the way that is named.
fn judge(
    session: Session,
    number: u32,
    words: &[u32],
    scratch: &[u32],
    outcomes: &[u32],
) -> Result<Way, Refusal>
    ensures { Admits (batch_status session number words.now scratch.now outcomes.now) number result }
{
    let way = session.admit(number)?;
    let shape = session.shape;
    if !is_run(shape, words) {
        return Err(Refusal::Length);
    }
    if scratch.len() != scratch_length(shape) {
        return Err(Refusal::Length);
    }
    if outcomes.len() != OUTCOMES {
        return Err(Refusal::Length);
    }
    Ok(way)
}

// One word, past all tests of the call: answered where that leaves the session as it is; else its page, which is new.
fn look(
    taken: &[bool; Session::PAGES],
    shape: Shape,
    way: Way,
    word: &mut [u32],
    came: &mut [u32],
    symbols: &mut [u32],
    values: &mut [u32],
) -> Option<Brought>
    requires { Openable shape (number_of way) word.old × (length came.old ≡ length word.old) × (length symbols.old ≡ info_length shape) × (length values.old ≡ 3) }
    ensures { Looked (way_of (number_of way)) shape taken.now word.old word.new came.new symbols.new values.new result }
{
    match open_kept(shape, way, word, came, symbols) {
        Err(e) => {
            values.copy_from_slice(&Outcome::Refused(e).values());
            None
        }
        Ok(page) => {
            let at = page.number as usize;
            if taken[at] {
                let again = Outcome::Again(page.number, page.corrected);
                values.copy_from_slice(&again.values());
                return None;
            }
            Some(page)
        }
    }
}

// The run word by word, first word first. A refused word keeps its digits, and the others go on; the session moves where a page is new. Room for a word and for its symbols is lent, so that it is made once.
fn run(
    session: Session,
    way: Way,
    words: &mut [u32],
    scratch: &mut [u32],
    outcomes: &mut [u32],
    came: &mut [u32],
    symbols: &mut [u32],
) -> Session
    requires { Tested session (number_of way) words.old scratch.old outcomes.old × (length came.old ≡ word_length session.shape) × (length symbols.old ≡ info_length session.shape) }
    ensures { Arrivals session (number_of way) words.old scratch.old words.new scratch.new outcomes.new result }
{
    let shape = session.shape;
    let size = came.len();
    outcomes.fill(0);
    let mut after = session;
    for i in 0..words.len() / size {
        let from = i * size;
        let at = 3 * i;
        let word = &mut words[from..from + size];
        let values = &mut outcomes[at..at + 3];
        let seen = look(&after.taken, shape, way, word, came, symbols, values);
        let Some(page) = seen else {
            continue;
        };
        let last = 2 + page.count as usize;
        let arrived = after.settled(page.number, page.corrected, &symbols[2..last]);
        let outcome = arrived.outcome;
        outcome.put_back(came, word);
        values.copy_from_slice(&outcome.values());
        after = arrived.session;
    }
    scratch.fill(0);
    after
}

// A run of words that arrive side by side, all read one way. A refusal is of the whole call and changes nothing; a word's own answer goes to the list of outcomes.
pub fn arrive_all(
    session: Session,
    way: u32,
    words: &mut [u32],
    scratch: &mut [u32],
    outcomes: &mut [u32],
) -> Delivered
    ensures { Batching session way words.old scratch.old outcomes.old words.new scratch.new outcomes.new result }
{
    match judge(session, way, words, scratch, outcomes) {
        Err(e) => Delivered {
            session,
            status: Err(e),
        },
        Ok(way) => {
            let shape = session.shape;
            let size = word_length(shape);
            let info = info_length(shape);
            let mut came = [0u32; 961];
            let mut symbols = [0u32; 900];
            let after = run(
                session,
                way,
                words,
                scratch,
                outcomes,
                &mut came[..size],
                &mut symbols[..info],
            );
            Delivered {
                session: after,
                status: Ok(()),
            }
        }
    }
}
