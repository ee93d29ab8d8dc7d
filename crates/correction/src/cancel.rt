// The corrections tried on the syndromes: an error at j is XORed onto the n checks on j.
ghost use Rattle.std.specs.Prelude.{◌≡◌, ◌<◌, length};
ghost use Rattle.gtb.specs.Shape.{word_length};
ghost use Rattle.correction.specs.Error.{check_of};
ghost use Rattle.correction.specs.Steps.{quiet, Toggled, Within, Cancelled};

use crate::checks::Checks;

impl Checks {
    // The n checks on position j.
    pub fn cancel_one(self, syn: &mut [u32; 248], j: usize, error: u32)
        requires { (length syn.old ≡ 248) × (j < word_length self.shape) }
        ensures { Toggled self.shape.n (check_of self.shape j) (λ t. error) syn.old syn.new }
    {
        let n = self.shape.n as usize;
        for t in 0..n {
            let check = self.number(t, j);
            syn[check] ^= error;
        }
    }

    // The checks on the first `count` places. With no hint it is called, not inlined, and to check a damaged word of order 3 takes half as long again.
    #[inline]
    pub fn cancel(self, syn: &mut [u32; 248], places: &[usize; 8], errors: &[u32; 8], count: usize)
        requires { (length syn.old ≡ 248) × Within self.shape count places.now }
        ensures { Cancelled self.shape count places.now errors.now syn.old syn.new }
    {
        for x in 0..count {
            self.cancel_one(syn, places[x], errors[x]);
        }
    }

    // Every check is silent. One value gathers the bits of them all, so that the loop has no branch.
    // Kept as it is: a fold over that part of the list was tried, and reading a clean word of order 17 took 1.08 of this.
    pub fn is_silent(self, syn: &[u32; 248]) -> bool
        ensures { result ≡ quiet self.shape syn.now }
    {
        let q = self.shape.q as usize;
        let n = self.shape.n as usize;
        let count = n * q;
        let mut bits = 0;
        for e in 0..count {
            bits |= syn[e];
        }
        bits == 0
    }
}
