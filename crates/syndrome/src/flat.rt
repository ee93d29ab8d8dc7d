// Two directions, the second of which goes straight down: its lines are the columns, so that no row is rotated, and none laid down.
ghost use Rattle.std.specs.Prelude.{◌≡◌, true, ◌+◌, ◌*◌, ◌≤◌, length, replicate};
ghost use Rattle.parity.specs.Xor.{xor_sum};
ghost use Rattle.gtb.specs.Shape.{Lawful, word_length};
ghost use Rattle.gtb.specs.Square.{at, Syndromes};
ghost use Rattle.syndrome.specs.Sweep.{Added, is_flat};

use crate::{add_rows, add_run};
use gtb::{Shape, copy_run, slope};

// So it is with this shape.
pub fn is_flat(shape: Shape) -> bool
    ensures { result ≡ is_flat shape }
{
    if shape.n != 2 {
        return false;
    }
    slope(shape, 1) == 0
}

// Each row is XORed onto the first q sums, as it stands.
fn add_columns(sums: &mut [u32], word: &[u32], q: usize)
    requires { (q ≤ length sums.old) × (length word.now ≡ q * q) × (q ≤ 31) }
    ensures { Added 0 q (λ c. xor_sum q (λ r. at word.now (r * q + c))) sums.old sums.new }
{
    for r in 0..q {
        add_run(sums, word, 0, r * q, q);
    }
}

// Both directions, on zeros. The columns are summed in a list of our own: for all the compiler knows a lent one might overlap the word.
fn flat_by<const Q: usize>(shape: Shape, word: &[u32], syn: &mut [u32; 248])
    requires { (Lawful shape) × (length word.now ≡ word_length shape) × (syn.old ≡ replicate 248 0) × (is_flat shape ≡ true) × (shape.q ≡ Q) }
    ensures { Syndromes shape word.now syn.new }
{
    let mut sums = [0u32; 31];
    add_rows(syn, word, Q);
    add_columns(&mut sums, word, Q);
    copy_run(syn, &sums, Q, 0, Q);
}

// The same with a literal order.
pub fn fill_flat(shape: Shape, word: &[u32], syn: &mut [u32; 248])
    requires { (Lawful shape) × (length word.now ≡ word_length shape) × (syn.old ≡ replicate 248 0) × (is_flat shape ≡ true) }
    ensures { Syndromes shape word.now syn.new }
{
    let q = shape.q;
    match q {
        3 => flat_by::<3>(shape, word, syn),
        5 => flat_by::<5>(shape, word, syn),
        7 => flat_by::<7>(shape, word, syn),
        11 => flat_by::<11>(shape, word, syn),
        13 => flat_by::<13>(shape, word, syn),
        17 => flat_by::<17>(shape, word, syn),
        19 => flat_by::<19>(shape, word, syn),
        23 => flat_by::<23>(shape, word, syn),
        29 => flat_by::<29>(shape, word, syn),
        _ => flat_by::<31>(shape, word, syn),
    }
}
