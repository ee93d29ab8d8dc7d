// The positions that the vote changes, in rising order, in a local array of 8. One more than n/2 of them is one too many, and ends the search.
// Most positions have many silent checks, and are passed over by these alone.
ghost use Rattle.std.specs.Prelude.{◌≡◌, true, ◌+◌, ◌*◌, ◌<◌, eqb, length};
ghost use Rattle.parity.specs.Count.{bit};
ghost use Rattle.gtb.specs.Shape.{word_length};
ghost use Rattle.gtb.specs.Square.{at};
ghost use Rattle.correction.specs.Steps.{Listed, Scanned};
ghost use Rattle.majority.specs.Steps.{voted_in, found_in, Kept, too_many_changes};

use crate::vote::vote;
use correction::checks::Checks;
use correction::row::Row;

// Half of the checks on this row and column, or more, are silent: no other value has a majority. `own` is 1 if that of the row is silent.
fn is_quiet(row: Row, syn: &[u32; 248], own: usize, column: usize) -> bool
    requires { (own ≡ bit (eqb (at syn.now row.number) 0)) × (column < row.checks.shape.q) }
    ensures { result ≡ true → voted_in row.entry.checks.shape syn.now (row.entry.number * row.entry.checks.shape.q + column) ≡ 0 }
{
    let n = row.checks.shape.n as usize;
    let mut silent = own;
    for t in 1..n {
        let check = row.check(t, column);
        silent += (syn[check] == 0) as usize;
        if n <= 2 * silent {
            return true;
        }
    }
    false
}

// The position in this row and column joins the list if it changes.
fn keep(
    row: Row,
    syn: &[u32; 248],
    own: usize,
    places: &mut [usize; 8],
    count: usize,
    column: usize,
) -> usize
    requires { (own ≡ bit (eqb (at syn.now row.number) 0)) × (column < row.checks.shape.q)
        × (count < too_many_changes row.checks.shape) × (length places.old ≡ 8) }
    ensures { Kept row.entry.checks.shape syn.now (row.entry.number * row.entry.checks.shape.q + column) count places.old result places.new }
{
    if is_quiet(row, syn, own, column) {
        return count;
    }
    let q = row.checks.shape.q as usize;
    let j = row.number * q + column;
    if vote(row.checks, syn, j) == 0 {
        return count;
    }
    places[count] = j;
    count + 1
}

// One row. In a search of loud rows one whose own check is silent is passed over.
fn scan_row(
    checks: Checks,
    syn: &[u32; 248],
    loud: bool,
    row: usize,
    places: &mut [usize; 8],
    count: usize,
) -> Option<usize>
    requires { (row < checks.shape.q) × (count < too_many_changes checks.shape)
        × Listed (found_in checks.shape syn.now loud) (row * checks.shape.q) count places.old }
    ensures { Scanned (found_in checks.shape syn.now loud) (too_many_changes checks.shape) (row * checks.shape.q + checks.shape.q) result places.new }
{
    let silent = syn[row] == 0;
    if loud && silent {
        return Some(count);
    }
    let q = checks.shape.q as usize;
    let n = checks.shape.n as usize;
    let limit = n / 2 + 1;
    let mut room = [0usize; 8];
    let in_row = Row::of(checks, row, &mut room);
    let own = silent as usize;
    let mut k = count;
    for c in 0..q {
        k = keep(in_row, syn, own, places, k, c);
        if limit <= k {
            return None;
        }
    }
    Some(k)
}

// The whole word, or of it the rows whose own check is not silent: the number of positions that change, or none if there are
// more than n/2.
pub fn locate(
    checks: Checks,
    syn: &[u32; 248],
    loud: bool,
    places: &mut [usize; 8],
) -> Option<usize>
    requires { length places.old ≡ 8 }
    ensures { Scanned (found_in checks.shape syn.now loud) (too_many_changes checks.shape) (word_length checks.shape) result places.new }
{
    let q = checks.shape.q as usize;
    let mut found = 0;
    for row in 0..q {
        found = scan_row(checks, syn, loud, row, places, found)?;
    }
    Some(found)
}
