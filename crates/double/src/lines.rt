// Lines that are not silent, and where two lines meet.
ghost use Rattle.std.specs.Prelude.{◌≡◌, ◌*◌, ◌<◌, take, drop};
ghost use Rattle.double.specs.Steps.{FirstLine, LastLine, Crosses};

use correction::checks::Checks;

// The checks of direction t.
fn checks_of<'a>(checks: Checks, syn: &'a [u32; 248], t: usize) -> &'a [u32]
    requires { t < checks.shape.n }
    ensures { result.now ≡ take checks.shape.q (drop (t * checks.shape.q) syn.now) }
{
    let q = checks.shape.q as usize;
    let first = t * q;
    &syn[first..first + q]
}

// The first line of direction t that is not silent.
pub fn first_line(checks: Checks, syn: &[u32; 248], t: usize) -> usize
    requires { t < checks.shape.n }
    ensures { FirstLine checks.shape syn.now t result }
{
    match checks_of(checks, syn, t).iter().position(|x| *x != 0) {
        Some(line) => line,
        None => 0,
    }
}

// The last one.
pub fn last_line(checks: Checks, syn: &[u32; 248], t: usize) -> usize
    requires { t < checks.shape.n }
    ensures { LastLine checks.shape syn.now t result }
{
    match checks_of(checks, syn, t).iter().rposition(|x| *x != 0) {
        Some(line) => line,
        None => 0,
    }
}

// The position on line a of direction t and line b of direction u: in row a, or found row by row.
pub fn cross(checks: Checks, t: usize, u: usize, a: usize, b: usize) -> usize
    requires { (t < u) × (u < checks.shape.n) × (a < checks.shape.q) × (b < checks.shape.q) }
    ensures { Crosses checks.shape t u a b result }
{
    if t == 0 {
        return checks.on_row(u, a, b);
    }
    let q = checks.shape.q as usize;
    for row in 0..q {
        let j = checks.on_row(u, row, b);
        if checks.number(t, j) == t * q + a {
            return j;
        }
    }
    0
}
