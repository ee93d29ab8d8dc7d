// The vote at one position: the nonzero value that more than half of its checks show.
ghost use Rattle.std.specs.Prelude.{◌≡◌, ◌*◌, ◌<◌, ◌≤◌};
ghost use Rattle.gtb.specs.Shape.{word_length};
ghost use Rattle.gtb.specs.Square.{at};
ghost use Rattle.majority.specs.Majority.{majority};
ghost use Rattle.majority.specs.Steps.{prevailing, voted_in};

use correction::checks::Checks;
use correction::values::shown;

// x is not 0, and more than half of the n values are x.
fn prevails(values: &[u32; 8], n: usize, x: u32) -> bool
    requires { n ≤ 8 }
    ensures { result ≡ prevailing n (at values.now) x }
{
    x != 0 && n < 2 * shown(values, n, x)
}

// The value that prevails, or 0.
fn elect(values: &[u32; 8], n: usize) -> u32
    requires { n ≤ 8 }
    ensures { result ≡ majority n (at values.now) }
{
    match values[..n].iter().position(|x| prevails(values, n, *x)) {
        Some(t) => values[t],
        None => 0,
    }
}

// The change at position j.
pub fn vote(checks: Checks, syn: &[u32; 248], j: usize) -> u32
    requires { j < word_length checks.shape }
    ensures { result ≡ voted_in checks.shape syn.now j }
{
    let n = checks.shape.n as usize;
    elect(&checks.gather(syn, j), n)
}
