// The system of equations: a row for each kept check, a column for each place, the check values on the right.
ghost use Rattle.std.specs.Prelude.{◌≡◌, ◌&&◌, ℕ, ◌+◌, ◌*◌, ◌<◌, ◌≤◌, eqb, ltb, length};
ghost use Rattle.gtb.specs.Shape.{Lawful, word_length, kept_checks};
ghost use Rattle.gtb.specs.Square.{at};
ghost use Rattle.gtb.specs.Kept.{kept_direction, kept_line};
ghost use Rattle.erasure.specs.Steps.{on_kept, Numbered, Table, Flipped, Asked};

use correction::checks::Checks;
use gtb::Shape;
use gtb::size::kept_checks;

// The cell of a row in column k is toggled.
fn mark(rows: usize, width: usize, scratch: &mut [u32], row: usize, k: usize)
    requires { (row < rows) × (k < 32 * width) × (rows * width ≤ length scratch.old) }
    ensures { Flipped width rows (λ i c. eqb i row && eqb c k) scratch.old scratch.new }
{
    let bit = 1u32 << (k % 32);
    scratch[row * width + k / 32] ^= bit;
}

// The number of the check of direction t on position j, among the kept ones: direction after direction, line after line, without the
// last line of each direction but the first.
fn row_of(checks: Checks, t: usize, j: usize) -> Option<usize>
    requires { (t < checks.shape.n) × (j < word_length checks.shape) }
    ensures { Numbered checks.shape t j result }
{
    let q = checks.shape.q as usize;
    let check = checks.number(t, j);
    if t == 0 {
        return Some(check);
    }
    if check + 1 == (t + 1) * q {
        return None;
    }
    Some(check + 1 - t)
}

// The check of direction t on position j has column k, if it is kept.
fn mark_check(checks: Checks, width: usize, scratch: &mut [u32], k: usize, j: usize, t: usize)
    requires { (t < checks.shape.n) × (j < word_length checks.shape) × (k < 32 * width)
        × (kept_checks checks.shape * width ≤ length scratch.old) }
    ensures { Flipped width (kept_checks checks.shape) (λ i c. eqb (kept_direction checks.shape i) t && (eqb c k && on_kept checks.shape i j))
        scratch.old scratch.new }
{
    let rows = kept_checks(checks.shape);
    if let Some(row) = row_of(checks, t, j) {
        mark(rows, width, scratch, row, k);
    }
}

// The kept checks on position j have column k.
fn mark_place(checks: Checks, width: usize, scratch: &mut [u32], k: usize, j: usize)
    requires { (j < word_length checks.shape) × (k < 32 * width) × (kept_checks checks.shape * width ≤ length scratch.old) }
    ensures { Flipped width (kept_checks checks.shape) (λ i c. eqb c k && on_kept checks.shape i j) scratch.old scratch.new }
{
    let n = checks.shape.n as usize;
    for t in 0..n {
        mark_check(checks, width, scratch, k, j, t);
    }
}

// The kept checks on each place have its column.
pub fn mark_places(checks: Checks, width: usize, scratch: &mut [u32], places: &[u32])
    requires { Table checks.shape width (length places.now) scratch.old
        × ((k : ℕ) → k < length places.now → at places.now k < word_length checks.shape) }
    ensures { Flipped width (kept_checks checks.shape) (λ i c. ltb c (length places.now) && on_kept checks.shape i (at places.now c))
        scratch.old scratch.new }
{
    for (k, place) in places.iter().enumerate() {
        mark_place(checks, width, scratch, k, *place as usize);
    }
}

// The number, among all checks, of kept check i.
fn kept_check(shape: Shape, i: usize) -> usize
    requires { Lawful shape × (i < kept_checks shape) }
    ensures { result ≡ kept_direction shape i * shape.q + kept_line shape i }
{
    let q = shape.q as usize;
    if i < q {
        return i;
    }
    let others = q - 1;
    let t = (i - 1) / others;
    t * q + (i - 1) % others
}

// The values of the kept checks, out of those of all checks.
pub fn ask(shape: Shape, syn: &[u32; 248], values: &mut [u32; 248])
    requires { Lawful shape × (length values.old ≡ 248) }
    ensures { Asked shape syn.now (kept_checks shape) values.new }
{
    let rows = kept_checks(shape);
    for i in 0..rows {
        let check = kept_check(shape, i);
        values[i] = syn[check];
    }
}
