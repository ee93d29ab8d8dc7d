// Two words of lawful shape, length and width. The proposal's syndromes must all be 0; with the differences put on them they are those of
// the difference alone. So no syndromes of the received word are computed, and nothing is decoded.
ghost use Rattle.std.specs.Prelude.{◌≡◌, true, ◌&&◌, ℕ, ◌-◌, ◌≤◌, ◌<◌, leb, length};
ghost use Rattle.parity.specs.Lists.{Begins};
ghost use Rattle.parity.specs.Count.{any};
ghost use Rattle.gtb.specs.Shape.{word_length};
ghost use Rattle.gtb.specs.Square.{at, silent_test, Syndromes};
ghost use Rattle.correction.specs.Error.{weight};
ghost use Rattle.correction.specs.Steps.{Within};
ghost use Rattle.verify.specs.Verify.{difference, unmasked_test, restores};
ghost use Rattle.verify.specs.Steps.{is_masked};

use crate::locate::locate;
use correction::checks::Checks;

// The differences at the first `count` places.
fn list_differences(
    received: &[u32],
    proposed: &[u32],
    places: &[usize; 8],
    count: usize,
    errors: &mut [u32; 8],
)
    requires { (count ≤ 8) × (length errors.old ≡ 8) × ((x : ℕ) → x < count → (at places.now x < length received.now) × (at places.now x < length proposed.now)) }
    ensures { Begins 8 count (λ x. difference received.now proposed.now (at places.now x)) errors.new }
{
    for x in 0..count {
        let j = places[x];
        errors[x] = received[j] ^ proposed[j];
    }
}

// Some check on position j is silent. Kept as a loop: with `any` over the directions the check of a proposal for a damaged word took up
// to 1.07 of this.
fn is_masked(checks: Checks, syn: &[u32; 248], j: usize) -> bool
    requires { j < word_length checks.shape }
    ensures { result ≡ is_masked checks.shape syn.now j }
{
    let n = checks.shape.n as usize;
    for t in 0..n {
        if syn[checks.number(t, j)] == 0 {
            return true;
        }
    }
    false
}

// So it is with one of the first `count` places.
fn any_masked(checks: Checks, syn: &[u32; 248], places: &[usize; 8], count: usize) -> bool
    requires { Within checks.shape count places.now }
    ensures { result ≡ any count (λ x. is_masked checks.shape syn.now (at places.now x)) }
{
    places[..count].iter().any(|j| is_masked(checks, syn, *j))
}

// The difference is unmasked damage to at most n - 1 symbols; `syn` has the syndromes of a silent proposal. The errors are put on it, and
// then none of the places is on a silent check.
fn is_clean(checks: Checks, syn: &mut [u32; 248], received: &[u32], proposed: &[u32]) -> bool
    requires { (length received.now ≡ word_length checks.shape) × (length proposed.now ≡ word_length checks.shape)
        × Syndromes checks.shape proposed.now syn.old × (silent_test checks.shape (at proposed.now) ≡ true) }
    ensures { result ≡ (leb (weight checks.shape (difference received.now proposed.now)) (checks.shape.n - 1)
        && unmasked_test checks.shape (difference received.now proposed.now)) }
{
    let mut places = [0usize; 8];
    let mut errors = [0u32; 8];
    let Some(count) = locate(checks, received, proposed, &mut places) else {
        return false;
    };
    list_differences(received, proposed, &places, count, &mut errors);
    checks.cancel(syn, &places, &errors, count);
    !any_masked(checks, syn, &places, count)
}

// The proposal is a codeword, and unmasked damage to at most n - 1 symbols makes the received word of it.
pub fn is_restored(checks: Checks, received: &[u32], proposed: &[u32]) -> bool
    requires { (length received.now ≡ word_length checks.shape) × (length proposed.now ≡ word_length checks.shape) }
    ensures { result ≡ restores checks.shape received.now proposed.now }
{
    let mut syn = [0u32; 248];
    syndrome::fill(checks.shape, proposed, &mut syn);
    if !checks.is_silent(&syn) {
        return false;
    }
    is_clean(checks, &mut syn, received, proposed)
}
