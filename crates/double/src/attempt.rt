// Two wrong symbols by two directions that part them: each shows two lines, and these four lines cross in the two positions.
ghost use Rattle.std.specs.Prelude.{◌≡◌, cond, ◌+◌, ◌*◌, ◌<◌, eqb};
ghost use Rattle.gtb.specs.Shape.{word_length};
ghost use Rattle.gtb.specs.Square.{at};
ghost use Rattle.double.specs.Steps.{Tried, Attempted, FoundTwo};

use crate::Pair;
use crate::lines::{cross, first_line, last_line};
use correction::checks::Checks;

// The pair, if it silences every check. It is tried on a copy of the syndromes.
fn test_pair(checks: Checks, syn: &[u32; 248], pair: Pair) -> Option<Pair>
    requires { (pair.a < word_length checks.shape) × (pair.b < word_length checks.shape) }
    ensures { Tried checks.shape syn.now pair result }
{
    let places = [pair.a, pair.b, 0, 0, 0, 0, 0, 0];
    let errors = [pair.x, pair.y, 0, 0, 0, 0, 0, 0];
    let mut left = *syn;
    checks.cancel(&mut left, &places, &errors, 2);
    if checks.is_silent(&left) {
        return Some(pair);
    }
    None
}

// What the second line shows: 0 if it is the first one again, since then one symbol is wrong.
fn second_value(syn: &[u32; 248], first: usize, last: usize) -> u32
    requires { last < 248 }
    ensures { result ≡ cond (eqb first last) 0 (at syn.now last) }
{
    if first == last {
        return 0;
    }
    syn[last]
}

// Lines a and b of direction t, c and d of direction u: a meets c or d, and b the other.
fn attempt(checks: Checks, syn: &[u32; 248], t: usize, u: usize) -> Option<Pair>
    requires { (t < u) × (u < checks.shape.n) }
    ensures { Attempted checks.shape syn.now t u result }
{
    let q = checks.shape.q as usize;
    let a = first_line(checks, syn, t);
    let b = last_line(checks, syn, t);
    let c = first_line(checks, syn, u);
    let d = last_line(checks, syn, u);
    let x = syn[t * q + a];
    let y = second_value(syn, t * q + a, t * q + b);
    let straight = Pair {
        a: cross(checks, t, u, a, c),
        b: cross(checks, t, u, b, d),
        x,
        y,
    };
    if let Some(pair) = test_pair(checks, syn, straight) {
        return Some(pair);
    }
    let crossed = Pair {
        a: cross(checks, t, u, a, d),
        b: cross(checks, t, u, b, c),
        x,
        y,
    };
    test_pair(checks, syn, crossed)
}

// Two positions share a line in at most one of three directions, so two of these part them.
pub fn find(checks: Checks, syn: &[u32; 248]) -> Option<Pair>
    requires { 2 < checks.shape.n }
    ensures { FoundTwo checks.shape syn.now result }
{
    attempt(checks, syn, 0, 1)
        .or_else(|| attempt(checks, syn, 0, 2))
        .or_else(|| attempt(checks, syn, 1, 2))
}
