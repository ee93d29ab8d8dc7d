// The checks on the positions of a row: a number from the table where there is one, else by what the slopes add to the columns of the
// row, computed once for the row, so that no symbol needs a remainder.
ghost use Rattle.std.specs.Prelude.{◌≡◌, false, ◌+◌, ◌*◌, ◌<◌, ◌≤◌, length};
ghost use Rattle.gtb.specs.Shape.{Lawful};
ghost use Rattle.correction.specs.Error.{check_of};
ghost use Rattle.correction.specs.Shipped.{is_shipped};
ghost use Rattle.correction.specs.Steps.{Shifts};

use crate::checks::Checks;
use gtb::Shape;

// One row, and what the slopes add to its columns: column c is on line c + shift modulo q of a direction from 1 on. Where there is a
// table the shifts are not needed, and stay as they were lent.
#[derive(Clone, Copy)]
pub struct Row<'a> {
    pub checks: Checks,
    pub number: usize,
    shifts: &'a [usize; 8],
    ghost inside: { number < checks.shape.q },
    ghost shifted: { is_shipped checks.shape ≡ false → Shifts checks.shape number checks.shape.n shifts.now },
}

// The shifts, slope × row modulo q, are put down where room is lent: handed back by value they would be copied before the last of them
// is stored, which costs more than all else here.
fn put_shifts(shape: Shape, row: usize, shifts: &mut [usize; 8])
    requires { Lawful shape × (row < shape.q) × (length shifts.old ≡ 8) }
    ensures { Shifts shape row shape.n shifts.new }
{
    let q = shape.q;
    let n = shape.n as usize;
    let slopes = shape.slopes;
    let r = row as u32;
    for t in 1..n {
        let place = t - 1;
        shifts[t] = (slopes[place] * r % q) as usize;
    }
}

impl<'a> Row<'a> {
    pub fn of(checks: Checks, row: usize, room: &'a mut [usize; 8]) -> Row<'a>
        requires { row < checks.shape.q }
        ensures { (result.checks ≡ checks) × (result.number ≡ row) }
    {
        if !checks.has_table() {
            put_shifts(checks.shape, row, room);
        }
        Row {
            checks,
            number: row,
            shifts: room,
        }
    }

    // The number of a position's check in a direction from 1 on.
    pub fn check(self, t: usize, column: usize) -> usize
        requires { (1 ≤ t) × (t < self.checks.shape.n) × (column < self.checks.shape.q) }
        ensures { result ≡ check_of self.entry.checks.shape (self.entry.number * self.entry.checks.shape.q + column) t }
    {
        let q = self.checks.shape.q as usize;
        if self.checks.has_table() {
            return self.checks.number(t, self.number * q + column);
        }
        t * q + gtb::add_mod(column, self.shifts[t], q)
    }
}
