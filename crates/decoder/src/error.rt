// The error at a located position: what the first check shows that no other located position is on.
ghost use Rattle.std.specs.Prelude.{◌≡◌, ◌<◌, length};
ghost use Rattle.parity.specs.Lists.{Begins};
ghost use Rattle.gtb.specs.Shape.{word_length};
ghost use Rattle.gtb.specs.Square.{at};
ghost use Rattle.correction.specs.Steps.{Within};
ghost use Rattle.decoder.specs.Steps.{shares, alone_among_places, error_among};

use correction::checks::Checks;

// i is another position than j on the check of direction t on j.
fn shares_check(checks: Checks, t: usize, j: usize, i: usize) -> bool
    requires { (t < checks.shape.n) × (j < word_length checks.shape) × (i < word_length checks.shape) }
    ensures { result ≡ shares checks.shape t j i }
{
    if i == j {
        return false;
    }
    checks.number(t, i) == checks.number(t, j)
}

// No other of the first `count` places is on the check of direction t on j.
fn is_alone(checks: Checks, places: &[usize; 8], count: usize, j: usize, t: usize) -> bool
    requires { (t < checks.shape.n) × (j < word_length checks.shape) × Within checks.shape count places.now }
    ensures { result ≡ alone_among_places checks.shape places.now count j t }
{
    for x in 0..count {
        if shares_check(checks, t, j, places[x]) {
            return false;
        }
    }
    true
}

// The error at j: directions in rising order; 0 where no check has j alone on it.
fn error_of(checks: Checks, syn: &[u32; 248], places: &[usize; 8], count: usize, j: usize) -> u32
    requires { (j < word_length checks.shape) × Within checks.shape count places.now }
    ensures { result ≡ error_among checks.shape syn.now places.now count j }
{
    let n = checks.shape.n as usize;
    for t in 0..n {
        if is_alone(checks, places, count, j, t) {
            return syn[checks.number(t, j)];
        }
    }
    0
}

// The errors at the first `count` places.
pub fn evaluate(
    checks: Checks,
    syn: &[u32; 248],
    places: &[usize; 8],
    count: usize,
    errors: &mut [u32; 8],
)
    requires { (length errors.old ≡ 8) × Within checks.shape count places.now }
    ensures { Begins 8 count (λ x. error_among checks.shape syn.now places.now count (at places.now x)) errors.new }
{
    for x in 0..count {
        errors[x] = error_of(checks, syn, places, count, places[x]);
    }
}
