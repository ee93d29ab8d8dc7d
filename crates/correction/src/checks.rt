// The checks on the positions of a lawful shape.
ghost use Rattle.std.specs.Prelude.{◌≡◌, false, ◌<◌, length};
ghost use Rattle.gtb.specs.Shape.{Lawful, word_length};
ghost use Rattle.correction.specs.Error.{check_of};
ghost use Rattle.correction.specs.Shipped.{is_shipped, Tabled};

use crate::shipped::is_shipped;
use crate::table::check_numbers;
use gtb::Shape;
use gtb::code::Code;

// A shape and the table of its check numbers. Only the shipped shape has one, which is never empty; of every other shape the slice is
// empty, and the numbers are computed.
#[derive(Clone, Copy)]
pub struct Checks {
    pub shape: Shape,
    table: &'static [u8],
    ghost lawful: { Lawful shape },
    ghost tabled: { Tabled shape table.now },
    ghost untabled: { length table.now ≡ 0 → is_shipped shape ≡ false },
}

impl From<Code> for Checks {
    ghost from_gives = { λ code checks. checks.shape ≡ code.shape };

    fn from(code: Code) -> Checks {
        let shape = code.shape;
        if is_shipped(shape) {
            return Checks {
                shape,
                table: check_numbers(),
            };
        }
        Checks { shape, table: &[] }
    }
}

impl Checks {
    // The numbers come from a table.
    pub fn has_table(self) -> bool
        ensures { result ≡ is_shipped self.shape }
    {
        !self.table.is_empty()
    }

    // The number of the check of direction t on position j: every reader takes it from here, but for a search by rows without a table.
    pub fn number(self, t: usize, j: usize) -> usize
        requires { (t < self.shape.n) × (j < word_length self.shape) }
        ensures { result ≡ check_of self.shape j t }
    {
        if self.table.is_empty() {
            return check_number(self.shape, t, j);
        }
        let place = 4 * j + t;
        self.table[place] as usize
    }
}

// The same, computed.
fn check_number(shape: Shape, t: usize, j: usize) -> usize
    requires { Lawful shape × (t < shape.n) × (j < word_length shape) }
    ensures { result ≡ check_of shape j t }
{
    let q = shape.q as usize;
    let row = j / q;
    if t == 0 {
        return row;
    }
    t * q + (j % q + gtb::slope(shape, t) * row) % q
}
