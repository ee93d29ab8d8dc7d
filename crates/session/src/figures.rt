// The two figures beside the page marks: how many pages are taken, and the lowest number that is not.
ghost use Rattle.std.specs.Prelude.{◌≡◌, true, false, MatchOption, EachIndex, ◌&&◌, ℕ, ◌≤◌, ◌<◌, eqb, length};
ghost use Rattle.parity.specs.Count.{count};
ghost use Rattle.session.specs.Session.{marked, pages_of, lowest_of};
ghost use Rattle.session.specs.Steps.{marks_in};

use crate::Session;

// How many of at most 128 marks are yes: so few that a u8 holds their number, and many are counted at once.
fn marked_in(marks: &[bool]) -> u8
    requires { length marks.now ≤ 128 }
    ensures { result ≡ marks_in marks.now }
{
    let mut pages = 0u8;
    for mark in marks {
        pages += *mark as u8;
    }
    pages
}

// How many marks below a number are yes.
fn marked_below(taken: &[bool; Session::PAGES], end: usize) -> u32
    requires { end ≤ 1024 }
    ensures { result ≡ count end (marked taken.now) }
{
    let mut pages = 0u32;
    for part in taken[..end].chunks(128) {
        pages += marked_in(part) as u32;
    }
    pages
}

// Both figures are what the marks say.
pub fn agree(taken: &[bool; Session::PAGES], pages: u32, lowest: u32) -> bool
    ensures { result ≡ (eqb pages (pages_of taken.now) && eqb lowest (lowest_of taken.now)) }
{
    if marked_below(taken, Session::PAGES) != pages {
        return false;
    }
    if lowest > 1024 {
        return false;
    }
    let at = lowest as usize;
    if marked_below(taken, at) != lowest {
        return false;
    }
    at == Session::PAGES || !taken[at]
}

// The place of the first mark that is no.
fn first_unmarked(marks: &[bool]) -> Option<usize>
    ensures { MatchOption result (EachIndex marks.now (λ k. marked marks.now k ≡ true)) (λ i. (i < length marks.now) × (marked marks.now i ≡ false) × ((k : ℕ) → k < i → marked marks.now k ≡ true)) }
{
    marks.iter().position(|mark| !*mark)
}

// The lowest number that is not marked, where all below `from` are.
pub fn lowest_from(taken: &[bool; Session::PAGES], from: u32) -> u32
    requires { (from ≤ 1024) × ((p : ℕ) → p < from → marked taken.now p ≡ true) }
    ensures { result ≡ lowest_of taken.now }
{
    match first_unmarked(&taken[from as usize..]) {
        Some(passed) => from + passed as u32,
        None => 1024,
    }
}
