// What a search guesses: the checks that are not silent, the positions on one of them, and the values that enough checks on a position show.
ghost use Rattle.std.specs.Prelude.{◌≡◌, true, not, ◌==◌, ◌<◌, ◌≤◌, position};
ghost use Rattle.gtb.specs.Square.{at};
ghost use Rattle.correction.specs.Guesses.{NotSilent, silent_lines, ManyNotSilent, OnRow, Placed, guessed};

use crate::checks::Checks;
use crate::values::shown;

// The first value that is not 0.
fn first_nonzero(values: &[u32]) -> Option<usize>
    ensures { result ≡ position (λ x. not (x == 0)) values.now }
{
    values.iter().position(|x| *x != 0)
}

impl Checks {
    // The first check that is not silent.
    pub fn first_not_silent(self, syn: &[u32; 248]) -> Option<usize>
        ensures { NotSilent self.shape syn.now result }
    {
        let count = (self.shape.n * self.shape.q) as usize;
        first_nonzero(&syn[..count])
    }

    // How many lines of direction t are silent. Kept as a loop, for the reason that `shown` is.
    fn silent_lines(self, syn: &[u32; 248], t: usize) -> usize
        requires { t < self.shape.n }
        ensures { result ≡ silent_lines self.shape syn.now t }
    {
        let q = self.shape.q as usize;
        let mut silent = 0;
        for line in 0..q {
            silent += usize::from(syn[t * q + line] == 0);
        }
        silent
    }

    // In some direction more than k lines are not silent: more than k symbols are wrong.
    pub fn too_many_not_silent(self, syn: &[u32; 248], k: usize) -> bool
        requires { k < self.shape.n }
        ensures { result ≡ true → ManyNotSilent self.shape syn.now k }
    {
        let q = self.shape.q as usize;
        let n = self.shape.n as usize;
        for t in 0..n {
            if self.silent_lines(syn, t) + k < q {
                return true;
            }
        }
        false
    }

    // The position in a row on a line of direction u, from 1 on.
    pub fn on_row(self, u: usize, row: usize, line: usize) -> usize
        requires { (1 ≤ u) × (u < self.shape.n) × (row < self.shape.q) × (line < self.shape.q) }
        ensures { OnRow self.shape u row line result }
    {
        let q = self.shape.q as usize;
        row * q + (line + (q - gtb::slope(self.shape, u)) * row) % q
    }

    // Position i on a line of direction t.
    pub fn place_of(self, t: usize, line: usize, i: usize) -> usize
        requires { (t < self.shape.n) × (line < self.shape.q) × (i < self.shape.q) }
        ensures { Placed self.shape t line i result }
    {
        if t == 0 {
            let q = self.shape.q as usize;
            return line * q + i;
        }
        self.on_row(t, i, line)
    }
}

// Value t, if it is not 0, none before it is the same, and enough of them are.
pub fn candidate(values: &[u32; 8], n: usize, least: usize, t: usize) -> u32
    requires { (n ≤ 8) × (t < n) }
    ensures { result ≡ guessed n (at values.now) least t }
{
    let value = values[t];
    if value == 0 {
        return 0;
    }
    if values[..t].contains(&value) {
        return 0;
    }
    if shown(values, n, value) < least {
        return 0;
    }
    value
}
