// An arrival at a session that is lent as values. Most arrivals leave it as it is: they are answered with the page marks read where they lie, and only a page that is new moves the session.
ghost use Rattle.std.specs.Prelude.{◌≡◌, ◌<◌, length};
ghost use Rattle.gtb.specs.Shape.{info_length, scratch_length};
ghost use Rattle.session.specs.Session.{Consistent};
ghost use Rattle.session.specs.Arrival.{way_of, the_ways, Opened, Arriving};
ghost use Rattle.session.specs.Named.{number_of};
ghost use Rattle.session.specs.Steps.{Functions, Settling, Deciding};
ghost use Rattle.host.specs.Crossing.{session_of};
ghost use Rattle.host.specs.Steps.{AtValues, Fitting};

use crate::crossing::{CALLS, LOWEST, MARKS, PAGES, SHAPE, load, load_shape, store};
use crate::figures;
use gtb::Shape;
use gtb::size::info_length;
use session::Outcome;
use session::open::open_kept;
use session::status::word_status;
use session::way::Way;

// The symbols of a word that can be longer than its scratch, and of its data: orders up to 13.
const FEW: usize = 169;

const FEW_DATA: usize = 144;

// The data symbols of orders up to 19: an array for those of every order is longer to clear than they are to gather.
const SHORT: usize = 324;

// A page that is new: the last step, by value. It may still be refused.
fn take_page(session: &mut [u32], number: u32, corrected: u32, marks: &[u32]) -> Outcome
    requires { (length session.old ≡ 1292) × Consistent (session_of session.old) × (number < 1024) × Functions marks.now }
    ensures { AtValues session.old (λ σ a. Settling σ (Opened.Page number marks.now corrected) a) session.new result }
{
    let arrived = load(session).settled(number, corrected, marks);
    let outcome = arrived.outcome;
    if let Outcome::Taken(_, _) = outcome {
        store(arrived.session, session);
    }
    outcome
}

// Both steps. A page that is marked is answered with the marks where they lie.
fn settle_word(
    session: &mut [u32],
    shape: Shape,
    way: Way,
    word: &mut [u32],
    came: &mut [u32],
    symbols: &mut [u32],
) -> Outcome
    requires { Fitting session.old shape (number_of way) word.old × (length came.old ≡ length word.old) × (length symbols.old ≡ info_length shape) }
    ensures { AtValues session.old (λ σ a. Deciding (way_of (number_of way)) σ word.old word.new a) session.new result }
{
    match open_kept(shape, way, word, came, symbols) {
        Err(e) => Outcome::Refused(e),
        Ok(page) => {
            let at = MARKS + page.number as usize;
            if session[at] != 0 {
                return Outcome::Again(page.number, page.corrected);
            }
            let end = 2 + page.count as usize;
            let outcome = take_page(session, page.number, page.corrected, &symbols[2..end]);
            outcome.put_back(came, word);
            outcome
        }
    }
}

// Both steps past all tests. What came is kept in the lent scratch where that is long enough, as it is from order 17 on; an array of the largest word would be longer to clear.
fn take_word(
    session: &mut [u32],
    shape: Shape,
    way: Way,
    word: &mut [u32],
    scratch: &mut [u32],
) -> Outcome
    requires { Fitting session.old shape (number_of way) word.old × (length scratch.old ≡ scratch_length shape) }
    ensures { AtValues session.old (λ σ a. Deciding (way_of (number_of way)) σ word.old word.new a) session.new result }
{
    let size = word.len();
    let info = info_length(shape);
    if size <= FEW {
        let mut came = [0u32; FEW];
        let mut few = [0u32; FEW_DATA];
        return settle_word(
            session,
            shape,
            way,
            word,
            &mut came[..size],
            &mut few[..info],
        );
    }
    if info <= SHORT {
        let mut short = [0u32; SHORT];
        return settle_word(
            session,
            shape,
            way,
            word,
            &mut scratch[..size],
            &mut short[..info],
        );
    }
    let mut symbols = [0u32; 900];
    settle_word(
        session,
        shape,
        way,
        word,
        &mut scratch[..size],
        &mut symbols[..info],
    )
}

// An arrival. Past test 2 every answer leaves the scratch cleared.
pub fn arrive(session: &mut [u32], way: u32, word: &mut [u32], scratch: &mut [u32]) -> Outcome
    requires { length session.old ≡ 1292 }
    ensures { AtValues session.old (λ σ a. Arriving the_ways σ way word.old scratch.old word.new scratch.new a) session.new result }
{
    let shape = load_shape(&session[..SHAPE]);
    let agree = figures::agree(&session[MARKS..CALLS], session[PAGES], session[LOWEST]);
    let way = match word_status(shape, way, agree, word, scratch) {
        Ok(way) => way,
        Err(e) => return Outcome::Refused(e),
    };
    let outcome = take_word(session, shape, way, word, scratch);
    scratch.fill(0);
    outcome
}
