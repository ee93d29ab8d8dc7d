// The search for a codeword that differs at no more than k positions. What is guessed is XORed onto the checks on its position, and taken
// off again where the search with one position less finds nothing. The list gets what was guessed, the last guess first.
ghost use Rattle.std.specs.Prelude.{true, ◌<◌};
ghost use Rattle.gtb.specs.Shape.{word_length};
ghost use Rattle.correction.specs.Steps.{Found};
ghost use Rattle.nearest.specs.Nearest.{nearest};
ghost use Rattle.nearest.specs.Steps.{Narrow, Searched, Visited, Attempted};

use correction::checks::Checks;
use correction::guesses::candidate;

// One guess: this value is wrong at position j.
#[cycle(attempt_search_visit)]
fn attempt(
    checks: Checks,
    syn: &mut [u32; 248],
    places: &mut [usize; 8],
    errors: &mut [u32; 8],
    k: usize,
    j: usize,
    value: u32,
) -> Option<usize>
    requires { (0 < k) × (k < checks.shape.n) × (j < word_length checks.shape) × Narrow checks.shape syn.old value }
    ensures { Attempted checks.shape k j value syn.old syn.new places.new errors.new result }
{
    if value == 0 {
        return None;
    }
    checks.cancel_one(syn, j, value);
    let Some(found) = search(checks, syn, places, errors, k - 1) else {
        checks.cancel_one(syn, j, value);
        return None;
    };
    places[found] = j;
    errors[found] = value;
    Some(found + 1)
}

// Position j is wrong. It shares one check at most with each of the other wrong symbols, k - 1 of them at most, so n + 1 - k of its checks
// or more show what is wrong there.
#[cycle(attempt_search_visit)]
fn visit(
    checks: Checks,
    syn: &mut [u32; 248],
    places: &mut [usize; 8],
    errors: &mut [u32; 8],
    k: usize,
    j: usize,
) -> Option<usize>
    requires { (0 < k) × (k < checks.shape.n) × (j < word_length checks.shape) }
    ensures { Visited checks.shape k j syn.old syn.new places.new errors.new result }
{
    let n = checks.shape.n as usize;
    let least = n + 1 - k;
    let values = checks.gather(syn, j);
    for t in 0..n {
        let value = candidate(&values, n, least, t);
        if let Some(found) = attempt(checks, syn, places, errors, k, j, value) {
            return Some(found);
        }
    }
    None
}

// At most k symbols are wrong, and one of them is on the first check that is not silent. The answer is how many corrections stand in
// the lists.
#[cycle(attempt_search_visit)]
fn search(
    checks: Checks,
    syn: &mut [u32; 248],
    places: &mut [usize; 8],
    errors: &mut [u32; 8],
    k: usize,
) -> Option<usize>
    requires { k < checks.shape.n }
    ensures { Searched checks.shape k syn.old syn.new places.new errors.new result }
{
    let Some(check) = checks.first_not_silent(syn) else {
        return Some(0);
    };
    if k == 0 || checks.too_many_not_silent(syn, k) {
        return None;
    }
    let q = checks.shape.q as usize;
    let t = check / q;
    let line = check % q;
    for i in 0..q {
        let j = checks.place_of(t, line, i);
        if let Some(found) = visit(checks, syn, places, errors, k, j) {
            return Some(found);
        }
    }
    None
}

// The corrections, places and errors: how many, or none if no codeword is within n - 1. Each number is tried before the next, so that the first
// that is found is the number of wrong symbols.
pub fn find(
    checks: Checks,
    syn: &mut [u32; 248],
    places: &mut [usize; 8],
    errors: &mut [u32; 8],
) -> Option<usize>
    ensures { Found nearest checks.shape true syn.old places.new errors.new result }
{
    let n = checks.shape.n as usize;
    for k in 0..n {
        if let Some(found) = search(checks, syn, places, errors, k) {
            return Some(found);
        }
    }
    None
}
