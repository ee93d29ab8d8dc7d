// The syndromes of a word.
#![tactic(auto)]

mod doubled;
pub mod flat;
mod literal;

ghost use Rattle.std.specs.Prelude.{◌≡◌, ◌+◌, ◌*◌, ◌≤◌, length, replicate};
ghost use Rattle.parity.specs.Xor.{xor_sum};
ghost use Rattle.gtb.specs.Shape.{Lawful, word_length};
ghost use Rattle.gtb.specs.Square.{at, Syndromes};
ghost use Rattle.syndrome.specs.Sweep.{Added};

use gtb::Shape;

// The XOR of `count` values, from place `from` on.
pub fn run_sum(values: &[u32], from: usize, count: usize) -> u32
    requires { from + count ≤ length values.now }
    ensures { result ≡ xor_sum count (λ i. at values.now (from + i)) }
{
    values[from..from + count].iter().fold(0, |sum, x| sum ^ x)
}

// The entries from `to` on take up `count` symbols of the word, from place `from` on.
// Kept as it is: of what is written through iter_mut() and zip(..), a proof knows the length alone.
fn add_run(syn: &mut [u32], word: &[u32], to: usize, from: usize, count: usize)
    requires { (to + count ≤ length syn.old) × (from + count ≤ length word.now) }
    ensures { Added to count (λ i. at word.now (from + i)) syn.old syn.new }
{
    for i in 0..count {
        syn[to + i] ^= word[from + i];
    }
}

// Direction 0: each entry takes up the whole of its row.
fn add_rows(syn: &mut [u32; 248], word: &[u32], q: usize)
    requires { (length syn.old ≡ 248) × (length word.now ≡ q * q) × (q ≤ 31) }
    ensures { Added 0 q (λ r. xor_sum q (λ c. at word.now (r * q + c))) syn.old syn.new }
{
    for row in 0..q {
        syn[row] ^= run_sum(word, row * q, q);
    }
}

// The values of all checks, that of line L of direction t at t × q + L, put down where zeros are lent. Each order is a literal.
pub fn fill(shape: Shape, word: &[u32], syn: &mut [u32; 248])
    requires { (Lawful shape) × (length word.now ≡ word_length shape) × (syn.old ≡ replicate 248 0) }
    ensures { Syndromes shape word.now syn.new }
{
    if flat::is_flat(shape) {
        flat::fill_flat(shape, word, syn);
        return;
    }
    let q = shape.q;
    match q {
        3 => literal::fill_with::<3, 18>(shape, word, syn),
        5 => literal::fill_with::<5, 50>(shape, word, syn),
        7 => literal::fill_with::<7, 98>(shape, word, syn),
        11 => literal::fill_with::<11, 242>(shape, word, syn),
        13 => literal::fill_with::<13, 338>(shape, word, syn),
        17 => literal::fill_with::<17, 578>(shape, word, syn),
        19 => literal::fill_with::<19, 722>(shape, word, syn),
        23 => literal::fill_with::<23, 1058>(shape, word, syn),
        29 => literal::fill_with::<29, 1682>(shape, word, syn),
        _ => literal::fill_with::<31, 1922>(shape, word, syn),
    }
}

// The same handed back.
pub fn syndromes(shape: Shape, word: &[u32]) -> [u32; 248]
    requires { (Lawful shape) × (length word.now ≡ word_length shape) }
    ensures { Syndromes shape word.now result }
{
    let mut syn = [0u32; 248];
    fill(shape, word, &mut syn);
    syn
}
