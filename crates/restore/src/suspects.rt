// Which positions may be wrong: those on one check, or all, and of these the ones whose checks allow it.
ghost use Rattle.std.specs.Prelude.{◌≡◌, false, Some, ℕ, ◌*◌, ◌<◌, ◌≤◌};
ghost use Rattle.gtb.specs.Shape.{word_length};
ghost use Rattle.restore.specs.Steps.{suspects, Chosen, Outvoted, Suspected};

use crate::marks::Marks;
use correction::checks::Checks;
use correction::values::shown;

// How many positions are on a check, or in the word if it is none.
pub fn suspect_count(checks: Checks, check: Option<usize>) -> usize
    ensures { result ≡ suspects checks.shape check }
{
    let q = checks.shape.q as usize;
    match check {
        Some(_) => q,
        None => q * q,
    }
}

// Position i of these.
pub fn suspect(checks: Checks, check: Option<usize>, i: usize) -> usize
    requires { (i < suspects checks.shape check) × ((c : ℕ) → check ≡ Some c → c < checks.shape.n * checks.shape.q) }
    ensures { Chosen checks.shape check i result }
{
    let q = checks.shape.q as usize;
    match check {
        Some(c) => checks.place_of(c / q, c % q, i),
        None => i,
    }
}

// Some value that is not 0 is shown at least so often.
fn is_shown(values: &[u32; 8], n: usize, least: usize) -> bool
    requires { (n ≤ 8) × (0 < least) }
    ensures { result ≡ false → Outvoted n values.now least }
{
    values[..n]
        .iter()
        .any(|x| *x != 0 && least <= shown(values, n, *x))
}

impl Marks {
    // Position j may be one of k wrong ones: it is not listed, and all checks on it but k - 1 are touched or show one value, not 0.
    pub fn is_suspect(&self, checks: Checks, places: &[u32], k: usize, j: usize) -> bool
        requires { (j < word_length checks.shape) × (k < checks.shape.n) }
        ensures { Suspected checks.shape places.now self.now k j result }
    {
        let place = j as u32;
        if places.contains(&place) {
            return false;
        }
        let n = checks.shape.n as usize;
        let touched = checks.gather(&self.touched, j);
        let free = shown(&touched, n, 1) + k;
        if n < free {
            return true;
        }
        let values = checks.gather(&self.seen, j);
        is_shown(&values, n, n + 1 - free)
    }
}
