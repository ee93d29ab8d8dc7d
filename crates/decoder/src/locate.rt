// The located positions, in rising order, in a local array of 8. One more than n - 1 of them is one too many, and ends the search with none.
ghost use Rattle.std.specs.Prelude.{◌≡◌, ◌+◌, ◌*◌, ◌<◌, length, Some};
ghost use Rattle.gtb.specs.Shape.{word_length};
ghost use Rattle.gtb.specs.Square.{at};
ghost use Rattle.correction.specs.Steps.{Listed, Scanned};
ghost use Rattle.decoder.specs.Steps.{judged, Judges};

use correction::checks::Checks;
use correction::row::Row;

// What is known of a position once it is judged: whether it is located, and how many of its checks were looked at.
#[derive(Clone, Copy)]
pub struct Judgement {
    pub located: bool,
    pub looked: u32,
}

// The position in this row and column is located if none of its checks is silent. They are looked at in rising direction, that of
// the row first, whose value `own` is, up to the first silent one.
pub fn judge(row: Row, syn: &[u32; 248], own: u32, column: usize) -> Judgement
    requires { (own ≡ at syn.now row.number) × (column < row.checks.shape.q) }
    ensures { Judges row.entry.checks.shape syn.now (row.entry.number * row.entry.checks.shape.q + column) result }
{
    if own == 0 {
        return Judgement {
            located: false,
            looked: 1,
        };
    }
    let n = row.checks.shape.n as usize;
    for t in 1..n {
        let check = row.check(t, column);
        if syn[check] == 0 {
            let looked = t as u32 + 1;
            return Judgement {
                located: false,
                looked: looked,
            };
        }
    }
    Judgement {
        located: true,
        looked: row.checks.shape.n,
    }
}

// The position in this row and column joins the list if it is located.
fn keep(
    row: Row,
    syn: &[u32; 248],
    own: u32,
    places: &mut [usize; 8],
    count: usize,
    column: usize,
) -> usize
    requires { (own ≡ at syn.now row.number) × (column < row.checks.shape.q) × (count < row.checks.shape.n)
        × Listed (judged row.checks.shape syn.now) (row.number * row.checks.shape.q + column) count places.old }
    ensures { Listed (judged row.entry.checks.shape syn.now) (row.entry.number * row.entry.checks.shape.q + column + 1) result places.new }
{
    let q = row.checks.shape.q as usize;
    let judged = judge(row, syn, own, column);
    if judged.located {
        places[count] = row.number * q + column;
        return count + 1;
    }
    count
}

// One row. One whose own check is silent is passed over: none of its positions is located, and nothing is written down.
fn scan_row(
    checks: Checks,
    syn: &[u32; 248],
    row: usize,
    places: &mut [usize; 8],
    count: usize,
) -> Option<usize>
    requires { (row < checks.shape.q) × (count < checks.shape.n) × Listed (judged checks.shape syn.now) (row * checks.shape.q) count places.old }
    ensures { Scanned (judged checks.shape syn.now) checks.shape.n (row * checks.shape.q + checks.shape.q) result places.new
        × (at syn.now row ≡ 0 → (result ≡ Some count) × (places.new ≡ places.old)) }
{
    let own = syn[row];
    if own == 0 {
        return Some(count);
    }
    let q = checks.shape.q as usize;
    let n = checks.shape.n as usize;
    let mut room = [0usize; 8];
    let in_row = Row::of(checks, row, &mut room);
    let mut found = count;
    for c in 0..q {
        found = keep(in_row, syn, own, places, found, c);
        if n <= found {
            return None;
        }
    }
    Some(found)
}

// The whole word: the number of located positions, or none if there are more than n - 1.
pub fn locate(checks: Checks, syn: &[u32; 248], places: &mut [usize; 8]) -> Option<usize>
    requires { length places.old ≡ 8 }
    ensures { Scanned (judged checks.shape syn.now) checks.shape.n (word_length checks.shape) result places.new }
{
    let q = checks.shape.q as usize;
    let mut found = 0;
    for row in 0..q {
        found = scan_row(checks, syn, row, places, found)?;
    }
    Some(found)
}
