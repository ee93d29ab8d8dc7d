// What the checks on a position show, and how often.
ghost use Rattle.std.specs.Prelude.{◌≡◌, ◌<◌, ◌≤◌};
ghost use Rattle.parity.specs.Lists.{Begins};
ghost use Rattle.gtb.specs.Shape.{word_length};
ghost use Rattle.gtb.specs.Square.{at};
ghost use Rattle.correction.specs.Error.{shows};
ghost use Rattle.correction.specs.Steps.{check_in};

use crate::checks::Checks;

impl Checks {
    // What the n checks on position j show.
    pub fn gather(self, syn: &[u32; 248], j: usize) -> [u32; 8]
        requires { j < word_length self.shape }
        ensures { Begins 8 self.shape.n (check_in self.shape syn.now j) result }
    {
        let n = self.shape.n as usize;
        let mut values = [0u32; 8];
        for t in 0..n {
            values[t] = syn[self.number(t, j)];
        }
        values
    }
}

// How many of the first n values are x. Kept as a loop: `filter` and `count` over them take three to eight times as long.
pub fn shown(values: &[u32; 8], n: usize, x: u32) -> usize
    requires { n ≤ 8 }
    ensures { result ≡ shows n (at values.now) x }
{
    let mut count = 0;
    for t in 0..n {
        count += usize::from(values[t] == x);
    }
    count
}
