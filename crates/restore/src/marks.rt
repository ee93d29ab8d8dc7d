// The two tables of the checks: what the checks without a listed place show, and which the others are.
ghost use Rattle.std.specs.Prelude.{ℕ, ◌<◌, length};
ghost use Rattle.gtb.specs.Shape.{word_length};
ghost use Rattle.gtb.specs.Square.{at};
ghost use Rattle.restore.specs.Steps.{Hides, HidesAll};

use correction::checks::Checks;

// A check that a listed place is on shows nothing, and is touched (1).
#[derive(Clone, Copy)]
pub struct Marks {
    pub seen: [u32; 248],
    pub touched: [u32; 248],
}

impl Marks {
    // Position j is listed from now on.
    pub fn hide(&mut self, checks: Checks, j: usize)
        requires { j < word_length checks.shape }
        ensures { Hides checks.shape j self.old self.new }
    {
        let n = checks.shape.n as usize;
        for t in 0..n {
            let check = checks.number(t, j);
            self.seen[check] = 0;
            self.touched[check] = 1;
        }
    }

    // All places of a list.
    pub fn hide_all(&mut self, checks: Checks, places: &[u32])
        requires { (k : ℕ) → k < length places.now → at places.now k < word_length checks.shape }
        ensures { HidesAll checks.shape places.now self.old self.new }
    {
        for place in places {
            self.hide(checks, *place as usize);
        }
    }
}
