// The syndromes of a word by rows that are laid down twice: a rotated row is then one run of q symbols. That pays where the caller's q
// is a literal, so that the compiler knows how long a run is.
ghost use Rattle.std.specs.Prelude.{◌≡◌, ◌+◌, ◌*◌, ◌%◌, ◌≤◌, ◌<◌, length, replicate};
ghost use Rattle.parity.specs.Xor.{xor_sum};
ghost use Rattle.gtb.specs.Shape.{Lawful, word_length};
ghost use Rattle.gtb.specs.Square.{at, Syndromes};
ghost use Rattle.syndrome.specs.Sweep.{Added, Doubled, Directions};

use crate::{add_rows, add_run};
use gtb::{Shape, add_mod, copy_run, slope};

// Row r, twice.
fn lay_row(twice: &mut [u32], word: &[u32], r: usize, q: usize)
    requires { (r < q) × (q ≤ 31) × (length word.now ≡ q * q) × Doubled q r word.now twice.old }
    ensures { Doubled q (r + 1) word.now twice.new }
{
    let to = r * (q + q);
    copy_run(twice, word, to, r * q, q);
    copy_run(twice, word, to + q, r * q, q);
}

// Every row, twice.
fn lay(twice: &mut [u32], word: &[u32], q: usize)
    requires { (q ≤ 31) × (length word.now ≡ q * q) × (length twice.old ≡ q * (q + q)) }
    ensures { Doubled q q word.now twice.new }
{
    for r in 0..q {
        lay_row(twice, word, r, q);
    }
}

// One direction: each row is XORed onto the q entries from `to` on, row r rotated by step × r.
fn sweep_twice(syn: &mut [u32; 248], twice: &[u32], to: usize, step: usize, q: usize)
    requires { (length syn.old ≡ 248) × (to + q ≤ 248) × (length twice.now ≡ q * (q + q)) × (step ≤ q) × (q ≤ 31) }
    ensures { Added to q (λ L. xor_sum q (λ r. at twice.now (r * (q + q) + (L + step * r % q)))) syn.old syn.new }
{
    let mut place: usize = 0;
    for r in 0..q {
        add_run(syn, twice, to, r * (q + q) + place, q);
        place = add_mod(place, step, q);
    }
}

// Direction 0, on zeros.
pub fn first_direction(shape: Shape, word: &[u32], syn: &mut [u32; 248], q: usize)
    requires { (Lawful shape) × (length word.now ≡ word_length shape) × (syn.old ≡ replicate 248 0) × (q ≡ shape.q) }
    ensures { Directions shape word.now 1 syn.new }
{
    add_rows(syn, word, q);
}

// The other directions; `twice` is room for the rows. It stands apart from direction 0 so that both stay small enough to be compiled
// into each caller, with its literal.
pub fn other_directions(
    shape: Shape,
    word: &[u32],
    syn: &mut [u32; 248],
    twice: &mut [u32],
    q: usize,
)
    requires { (Lawful shape) × (length word.now ≡ word_length shape) × (Directions shape word.now 1 syn.old) × (length twice.old ≡ q * (q + q)) × (q ≡ shape.q) }
    ensures { Syndromes shape word.now syn.new }
{
    let n = shape.n as usize;
    lay(twice, word, q);
    for t in 1..n {
        sweep_twice(syn, twice, t * q, q - slope(shape, t), q);
    }
}
