// The session: which pages have come, and how often each function was called.
#![tactic(auto)]

mod figures;
pub mod number;
pub mod open;
pub mod status;
pub mod way;

ghost use Rattle.std.specs.Prelude.{◌≡◌, cond, ◌<◌, length};
ghost use Rattle.paper.specs.Session as paper;
ghost use Rattle.gtb.specs.Answer.{status_number};
ghost use Rattle.gtb.specs.Shape.{of, info_length};
ghost use Rattle.session.specs.Session.{plain, Consistent, session_status, counted_of, counted_number, fresh_of, begun_session, begun_status, Beginning};
ghost use Rattle.session.specs.Arrival.{handed, left, way_of, the_ways, Opened, arrival_status, Arriving, is_accepted, outcome_values};
ghost use Rattle.session.specs.Named.{number_of, Admits};
ghost use Rattle.session.specs.Steps.{Adding, Counts, Functions, Settling, Openable, Deciding};

use crate::open::open_kept;
use crate::status::word_status;
use crate::way::Way;
use gtb::code::Code;
use gtb::size::info_length;
use gtb::{Refusal, Shape};

// A session handed in from elsewhere may hold anything, a bad shape too.
#[derive(Clone, Copy)]
pub struct Session {
    pub shape: Shape,
    pub taken: [bool; Session::PAGES],
    pub calls: [u32; Session::FUNCTIONS],
    // How many pages are taken.
    pub pages: u32,
    // The lowest page number not taken, 1024 if all are.
    pub lowest: u32,
}

// The answer of an arrival: page number and symbols changed, or a refusal.
#[derive(Clone, Copy)]
pub enum Outcome {
    Taken(u32, u32),
    Again(u32, u32),
    Refused(Refusal),
}

// An arrival's answer beside the session after it.
#[derive(Clone, Copy)]
pub struct Arrived {
    pub session: Session,
    pub outcome: Outcome,
}

// The page that a word brings: its number, how many marks it has, and how many symbols of the word were changed.
#[derive(Clone, Copy)]
pub struct Brought {
    pub number: u32,
    pub count: u32,
    pub corrected: u32,
}

// No page: the refusal, and whether the word was read, so that it stands restored.
#[derive(Clone, Copy)]
pub struct Unopened {
    pub refusal: Refusal,
    pub restored: bool,
}

impl From<Unopened> for Refusal {
    ghost from_gives = { λ e r. r ≡ e.refusal };

    fn from(unopened: Unopened) -> Refusal {
        unopened.refusal
    }
}

// No session begins with an unlawful shape. Beside the refusal stands the session of that shape with only no and zeros, which every entry refuses alike.
#[derive(Clone, Copy)]
pub struct Unlawful {
    pub refusal: Refusal,
    pub session: Session,
}

impl From<Unlawful> for Refusal {
    ghost from_gives = { λ e r. r ≡ e.refusal };

    fn from(unlawful: Unlawful) -> Refusal {
        unlawful.refusal
    }
}

impl Session {
    // Page numbers are below this.
    pub const PAGES: usize = 1024;

    // Function numbers are below this.
    pub const FUNCTIONS: usize = 256;

    // A session of any shape that has seen nothing.
    pub fn blank(shape: Shape) -> Session
        ensures { result ≡ fresh_of shape }
    {
        Session {
            shape,
            taken: [false; Session::PAGES],
            calls: [0u32; Session::FUNCTIONS],
            pages: 0,
            lowest: 0,
        }
    }

    // One of a shape that tests 1 and 18 let pass.
    pub fn fresh(shape: Shape) -> Result<Session, Unlawful>
        ensures begun { Beginning shape result }
        ensures paper { paper.Beginning (of shape) (plain (begun_session result)) (status_number (begun_status result)) }
    {
        let session = Session::blank(shape);
        match Code::of(shape) {
            Ok(_) => Ok(session),
            Err(refusal) => Err(Unlawful { refusal, session }),
        }
    }

    // Tests 1, 18 and 11.
    pub fn status(self) -> Result<(), Refusal>
        ensures { result ≡ session_status self }
    {
        let agree = figures::agree(&self.taken, self.pages, self.lowest);
        status::session_status(self.shape, agree)
    }

    // Tests 1, 18, 11 and 16, for arrivals that name the way with this number: that way, where they are passed.
    pub fn admit(self, way: u32) -> Result<Way, Refusal>
        ensures { Admits (arrival_status the_ways self way) way result }
    {
        let agree = figures::agree(&self.taken, self.pages, self.lowest);
        status::arrival_status(self.shape, way, agree)
    }

    // The same tests alone.
    pub fn arrival_status(self, way: u32) -> Result<(), Refusal>
        ensures { result ≡ arrival_status the_ways self way }
    {
        self.admit(way)?;
        Ok(())
    }

    // How often a function was called: tests 1, 18, 11, then 7.
    pub fn count(self, function: u32) -> Result<u32, Refusal>
        ensures counted { result ≡ counted_of self function }
        ensures paper { paper.Counting (plain self) function (counted_number result) }
    {
        self.status()?;
        if function > 255 {
            return Err(Refusal::Function);
        }
        let at = function as usize;
        let calls = self.calls;
        Ok(calls[at])
    }

    // An arrival, read the way that it names. Past test 2 every answer leaves the scratch cleared.
    pub fn arrive(self, way: u32, word: &mut [u32], scratch: &mut [u32]) -> Arrived
        ensures arrived { Arriving the_ways self way word.old scratch.old word.new scratch.new result }
        ensures paper { paper.Arriving (plain self) (handed way word.old scratch.old) (left result word.new scratch.new) }
    {
        let agree = figures::agree(&self.taken, self.pages, self.lowest);
        let way = match word_status(self.shape, way, agree, word, scratch) {
            Ok(way) => way,
            Err(e) => return self.refused(e),
        };
        scratch.fill(0);
        let size = word.len();
        let info = info_length(self.shape);
        let mut came = [0u32; 961];
        let mut symbols = [0u32; 900];
        self.settle_word(way, word, &mut came[..size], &mut symbols[..info])
    }

    // Turned down: the session is as it was.
    fn refused(self, refusal: Refusal) -> Arrived
        ensures { (result.session ≡ self) × (result.outcome ≡ Outcome.Refused refusal) }
    {
        Arrived {
            session: self,
            outcome: Outcome::Refused(refusal),
        }
    }

    // Both steps past all tests. Room for what came and for the information symbols is lent.
    fn settle_word(
        self,
        way: Way,
        word: &mut [u32],
        came: &mut [u32],
        symbols: &mut [u32],
    ) -> Arrived
        requires { Consistent self × Openable self.shape (number_of way) word.old × (length came.old ≡ length word.old) × (length symbols.old ≡ info_length self.shape) }
        ensures { Deciding (way_of (number_of way)) self word.old word.new result }
    {
        match open_kept(self.shape, way, word, came, symbols) {
            Err(e) => self.refused(e),
            Ok(page) => {
                let end = 2 + page.count as usize;
                let arrived = self.settled(page.number, page.corrected, &symbols[2..end]);
                let outcome = arrived.outcome;
                outcome.put_back(came, word);
                arrived
            }
        }
    }

    // The last step, for a page whose every mark is known good: a marked one is again; else its marks are counted in a copy, which is kept only if no count passes its limit.
    pub fn settled(self, number: u32, corrected: u32, marks: &[u32]) -> Arrived
        requires { Consistent self × (number < 1024) × Functions marks.now }
        ensures { Settling self (Opened.Page number marks.now corrected) result }
    {
        let shape = self.shape;
        let at = number as usize;
        let mut taken = self.taken;
        if taken[at] {
            return Arrived {
                session: self,
                outcome: Outcome::Again(number, corrected),
            };
        }
        let mut calls = self.calls;
        if add_marks(&mut calls, marks).is_none() {
            return self.refused(Refusal::Overflow);
        }
        taken[at] = true;
        let lowest = figures::lowest_from(&taken, self.lowest);
        Arrived {
            session: Session {
                shape,
                taken,
                calls,
                pages: self.pages + 1,
                lowest,
            },
            outcome: Outcome::Taken(number, corrected),
        }
    }
}

// Adds each mark that is a call to its function's count; none where a count would pass its limit. A mark 0 is the idle loop.
fn add_marks(calls: &mut [u32; Session::FUNCTIONS], marks: &[u32]) -> Option<()>
    requires { Counts calls.old × Functions marks.now }
    ensures { Adding calls.old marks.now calls.new result }
{
    for mark in marks {
        let f = *mark as usize;
        let call = (f != 0) as u32;
        calls[f] = calls[f].checked_add(call)?;
    }
    Some(())
}

impl Outcome {
    // Taken or again.
    pub fn is_accepted(self) -> bool
        ensures { result ≡ is_accepted self }
    {
        !matches!(self, Outcome::Refused(_))
    }

    // A page that is refused after all, by 9: what came is put back.
    pub fn put_back(self, came: &[u32], word: &mut [u32])
        requires { length came.now ≡ length word.old }
        ensures { word.new ≡ cond (is_accepted self) word.old came.now }
    {
        if !self.is_accepted() {
            gtb::copy(came, word);
        }
    }

    // The three values of the rules.
    pub fn values(self) -> [u32; 3]
        ensures { result ≡ outcome_values self }
    {
        match self {
            Outcome::Taken(page, corrected) => [0, page, corrected],
            Outcome::Again(page, corrected) => [1, page, corrected],
            Outcome::Refused(e) => [2, u32::from(e), 0],
        }
    }
}
