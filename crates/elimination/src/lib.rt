// Gaussian elimination over bits, with a value on the right of each row, to which XOR applies as to the bits.
#![tactic(auto)]

ghost use Rattle.std.specs.Prelude.{◌≡◌, true, false, ◌&&◌, ℕ, ◌+◌, ◌-◌, ◌*◌, ◌/◌, ◌%◌, ◌<◌, ◌≤◌, ◌⊎◌, eqb, length};
ghost use Rattle.parity.specs.Xor.{when};
ghost use Rattle.parity.specs.Lists.{at};
ghost use Rattle.elimination.specs.Packed.{bit_at, cell_of};
ghost use Rattle.elimination.specs.Outcome.{Room, Eliminated};
ghost use Rattle.elimination.specs.Steps.{lifted, cleared, Reduced, First, RunAdded, RowsCombined, Progress, TakenOff, Substituted};

// How many solutions there are.
#[derive(Clone, Copy)]
pub enum Outcome {
    Solved, // one
    Unsolvable, // none
    Ambiguous, // several
}

// Column k, in the value that holds it.
fn has(x: u32, k: usize) -> bool
    ensures { result ≡ bit_at x (k % 32) }
{
    (x >> (k % 32)) % 2 == 1
}

// Some value from `from` on, and before `to`, is not 0.
fn has_value(values: &[u32; 248], from: usize, to: usize) -> bool
    requires { (from ≤ to) × (to ≤ 248) }
    ensures some { result ≡ true → (i : ℕ) × (from ≤ i) × (i < to) × (at values.now i ≡ 0 → ⊥) }
    ensures none { result ≡ false → (i : ℕ) → i < to - from → at values.now (from + i) ≡ 0 }
{
    values[from..to].iter().any(|v| *v != 0)
}

// The values from + w are XORed onto the values to + w.
fn add_run(scratch: &mut [u32], to: usize, from: usize, first: usize, last: usize)
    requires { (first ≤ last) × (to + last ≤ length scratch.old) × (from + last ≤ length scratch.old) × ((from + last ≤ to) ⊎ (to + last ≤ from)) }
    ensures { RunAdded to from first last scratch.old scratch.new }
{
    for w in first..last {
        scratch[to + w] ^= scratch[from + w];
    }
}

// The value, if the row has column k.
fn share(x: u32, k: usize, value: u32) -> u32
    ensures { result ≡ when (bit_at x (k % 32)) value }
{
    if has(x, k) {
        return value;
    }
    0
}

// How the rows of a system lie in the scratch: row i is the values i * width up to (i + 1) * width of it, and column k is bit k % 32 of
// the row's value k / 32.
#[derive(Clone, Copy)]
struct Layout {
    rows: usize,
    width: usize,
    columns: usize,
    ghost few: { rows ≤ 248 },
    ghost narrow: { width ≤ 31 },
    ghost fits: { columns ≤ 32 * width },
}

impl Layout {
    // The first row from `from` on that has column k.
    fn find(self, scratch: &[u32], from: usize, k: usize) -> Option<usize>
        requires { (self.rows * self.width ≤ length scratch.now) × (k < self.columns) }
        ensures { First from self.rows (λ i. cell_of self.width scratch.now i k) result }
    {
        let width = self.width;
        (from..self.rows).find(
            |&i|
                requires { i * width + k / 32 < length scratch.now }
            { has(scratch[i * width + k / 32], k) },
        )
    }

    // Row s is XORed onto row i. Row s has no column below k, so the values before that of column k stay.
    fn add_row(self, scratch: &mut [u32], values: &mut [u32; 248], k: usize, s: usize, i: usize)
        requires { (self.rows * self.width ≤ length scratch.old) × (s < self.rows) × (i < self.rows)
            × (k < self.columns) × (i ≡ s → ⊥) × ((j : ℕ) → j < k → cell_of self.width scratch.old s j ≡ false) }
        ensures { RowsCombined self.width self.columns s (λ t. eqb t i) scratch.old values.old scratch.new values.new }
    {
        let used = (self.columns + 31) / 32;
        add_run(scratch, i * self.width, s * self.width, k / 32, used);
        values[i] ^= values[s];
    }

    // Row i loses column k, by row u, which has it.
    fn clear_row(self, scratch: &mut [u32], values: &mut [u32; 248], k: usize, u: usize, i: usize)
        requires { (self.rows * self.width ≤ length scratch.old) × (i < self.rows)
            × (k < self.columns) × (u < i) × ((j : ℕ) → j < k → cell_of self.width scratch.old u j ≡ false) }
        ensures { RowsCombined self.width self.columns u (λ t. eqb t i && cell_of self.width scratch.old t k)
            scratch.old values.old scratch.new values.new }
    {
        if !has(scratch[i * self.width + k / 32], k) {
            return;
        }
        self.add_row(scratch, values, k, u, i);
    }

    // Every row after row u loses column k. Those before it keep it: a system with several solutions, or none, needs no more.
    fn clear(self, scratch: &mut [u32], values: &mut [u32; 248], k: usize, u: usize)
        requires { (self.rows * self.width ≤ length scratch.old)
            × (k < self.columns) × (u < self.rows) × ((j : ℕ) → j < k → cell_of self.width scratch.old u j ≡ false) }
        ensures { RowsCombined self.width self.columns u (cleared self.rows (cell_of self.width scratch.old) k u)
            scratch.old values.old scratch.new values.new }
    {
        let first = u + 1;
        for i in first..self.rows {
            self.clear_row(scratch, values, k, u, i);
        }
    }

    // Row u gains column k from row `from`, the first from u on that has it.
    fn lift(self, scratch: &mut [u32], values: &mut [u32; 248], k: usize, u: usize, from: usize)
        requires { (self.rows * self.width ≤ length scratch.old) × (u < self.rows) × (from < self.rows)
            × (k < self.columns) × ((j : ℕ) → j < k → cell_of self.width scratch.old from j ≡ false) }
        ensures { RowsCombined self.width self.columns from (lifted u from) scratch.old values.old scratch.new values.new }
    {
        if from == u {
            return;
        }
        self.add_row(scratch, values, k, from, u);
    }

    // Column k, after u pivots: the number of pivots with it.
    fn column(self, scratch: &mut [u32], values: &mut [u32; 248], k: usize, u: usize) -> usize
        requires { (self.rows * self.width ≤ length scratch.old)
            × (k < self.columns) × Reduced self.columns self.rows k u (cell_of self.width scratch.old) }
        ensures { Progress self.rows self.width self.columns (k + 1) result scratch.old values.old scratch.new values.new }
    {
        let found = self.find(scratch, u, k);
        match found {
            None => u,
            Some(i) => {
                self.lift(scratch, values, k, u, i);
                self.clear(scratch, values, k, u);
                u + 1
            }
        }
    }

    // All columns: the number of pivots.
    fn reduce(self, scratch: &mut [u32], values: &mut [u32; 248]) -> usize
        requires { self.rows * self.width ≤ length scratch.old }
        ensures { Progress self.rows self.width self.columns self.columns result scratch.old values.old scratch.new values.new }
    {
        let mut u = 0;
        for k in 0..self.columns {
            u = self.column(scratch, values, k, u);
        }
        u
    }

    // Unknown k, which is known, is taken off the values of the rows before row k that have its column.
    fn take_off(self, scratch: &[u32], values: &mut [u32; 248], k: usize)
        requires { (self.rows * self.width ≤ length scratch.now) × (k < self.rows) × (k < self.columns) }
        ensures { TakenOff self.width k k scratch.now values.old values.new }
    {
        let value = values[k];
        for i in 0..k {
            values[i] ^= share(scratch[i * self.width + k / 32], k, value);
        }
    }

    // The unknowns of a system in whose row i column i is the first, the last unknown first.
    fn substitute(self, scratch: &[u32], values: &mut [u32; 248])
        requires { (self.rows * self.width ≤ length scratch.now) × (self.columns ≤ self.rows)
            × ((i j : ℕ) → i < self.columns → j ≤ i → cell_of self.width scratch.now i j ≡ eqb i j) }
        ensures { Substituted self.width self.columns 0 scratch.now values.old values.new }
    {
        for k in (0..self.columns).rev() {
            self.take_off(scratch, values, k);
        }
    }
}

// Solves the system of the first `rows` rows. If it has one solution, unknown k is left in values[k]; the scratch is left as it is by then.
pub fn eliminate(
    rows: usize,
    width: usize,
    columns: usize,
    scratch: &mut [u32],
    values: &mut [u32; 248],
) -> Outcome
    requires { Room rows width columns scratch.old values.old }
    ensures { Eliminated rows width columns scratch.old values.old result values.new }
{
    let layout = Layout {
        rows,
        width,
        columns,
    };
    let u = layout.reduce(scratch, values);
    if has_value(values, u, rows) {
        return Outcome::Unsolvable;
    }
    if u < columns {
        return Outcome::Ambiguous;
    }
    layout.substitute(scratch, values);
    Outcome::Solved
}
