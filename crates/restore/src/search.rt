// The search for a codeword that differs at no more than k positions that are not listed. A wrong symbol is a dead cell that nobody named:
// the search lists it, and goes on with k - 1. Tables and list are copied for that, so that nothing is taken back.
ghost use Rattle.std.specs.Prelude.{◌≡◌, false, ◌*◌, ◌<◌, length};
ghost use Rattle.gtb.specs.Shape.{word_length, scratch_length};
ghost use Rattle.gtb.specs.Square.{at, Word};
ghost use Rattle.erasure.specs.Fill.{is_listed};
ghost use Rattle.erasure.specs.Steps.{Places};
ghost use Rattle.restore.specs.Restore.{reach};
ghost use Rattle.restore.specs.Steps.{Node, Sought};

use crate::list::append;
use crate::marks::Marks;
use crate::suspects::{suspect, suspect_count};
use correction::checks::Checks;
use erasure::decide;
use syndrome::syndromes;

// No more is to be named: the changes at the places follow, unless a check that none of them is on is not silent.
fn settle(
    checks: Checks,
    word: &mut [u32],
    scratch: &mut [u32],
    syn: &[u32; 248],
    marks: &Marks,
    places: &[u32],
) -> Option<u32>
    requires { Node checks.shape word.old syn.now places.now marks.now 0 × (length scratch.old ≡ scratch_length checks.shape) }
    ensures { Sought checks.shape 0 word.old places.now word.new result (λ v. ⊥) }
{
    if checks.first_not_silent(&marks.seen).is_some() {
        return None;
    }
    decide(checks, word, syn, places, scratch).ok()
}

// Position j, whose checks allow that, is taken to be wrong, and is listed. The tables are a copy that goes on from here.
#[cycle(search_visit)]
fn visit(
    checks: Checks,
    word: &mut [u32],
    scratch: &mut [u32],
    syn: &[u32; 248],
    mut marks: Marks,
    places: &[u32],
    k: usize,
    j: usize,
) -> Option<u32>
    requires { Node checks.shape word.old syn.now places.now marks k × (length scratch.old ≡ scratch_length checks.shape)
        × (0 < k) × (j < word_length checks.shape) × (is_listed places.now j ≡ false) }
    ensures { Sought checks.shape k word.old places.now word.new result
        (λ v. is_listed places.now j ≡ false → at v j ≡ at word.old j) }
{
    marks.hide(checks, j);
    let named = append(places, j as u32);
    let count = places.len() + 1;
    search(checks, word, scratch, syn, &marks, &named[..count], k - 1)
}

// At most k positions that are not listed are wrong. If a check without a listed place is not silent, one of them is on the first such check.
#[cycle(search_visit)]
fn search(
    checks: Checks,
    word: &mut [u32],
    scratch: &mut [u32],
    syn: &[u32; 248],
    marks: &Marks,
    places: &[u32],
    k: usize,
) -> Option<u32>
    requires { Node checks.shape word.old syn.now places.now marks.now k × (length scratch.old ≡ scratch_length checks.shape) }
    ensures { Sought checks.shape k word.old places.now word.new result (λ v. ⊥) }
{
    let settled = settle(checks, word, scratch, syn, marks, places);
    if settled.is_some() {
        return settled;
    }
    if k == 0 || checks.too_many_not_silent(&marks.seen, k) {
        return None;
    }
    let check = checks.first_not_silent(&marks.seen);
    let count = suspect_count(checks, check);
    for i in 0..count {
        let j = suspect(checks, check, i);
        if !marks.is_suspect(checks, places, k, j) {
            continue;
        }
        let found = visit(checks, word, scratch, syn, *marks, places, k, j);
        if found.is_some() {
            return found;
        }
    }
    None
}

// As many wrong positions as the list leaves in reach; fewer are tried first, since that is quicker.
pub fn find(checks: Checks, word: &mut [u32], scratch: &mut [u32], places: &[u32]) -> Option<u32>
    requires { Word checks.shape word.old × Places (word_length checks.shape) places.now
        × (length scratch.old ≡ scratch_length checks.shape) × (length places.now < 2 * checks.shape.n) }
    ensures { Sought checks.shape (reach checks.shape (length places.now)) word.old places.now word.new result (λ v. ⊥) }
{
    let n = checks.shape.n as usize;
    let most = (2 * n - 1 - places.len()) / 2;
    let syn = syndromes(checks.shape, word);
    let mut marks = Marks {
        seen: syn,
        touched: [0u32; 248],
    };
    marks.hide_all(checks, places);
    for k in 0..=most {
        let found = search(checks, word, scratch, &syn, &marks, places, k);
        if found.is_some() {
            return found;
        }
    }
    None
}
