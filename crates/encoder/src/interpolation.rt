// The upper rows from their values at the shifts, in place (Newton's interpolation).
ghost use Rattle.std.specs.Prelude.{◌≡◌, suc, ◌+◌, ◌-◌, ◌*◌, ◌%◌, ◌≤◌, ◌<◌, length};
ghost use Rattle.parity.specs.Xor.{◌⊕◌};
ghost use Rattle.parity.specs.Cyclic.{Cyclic};
ghost use Rattle.gtb.specs.Shape.{word_length};
ghost use Rattle.gtb.specs.Square.{at};
ghost use Rattle.gtb.specs.Rows.{shift_of};
ghost use Rattle.encoder.specs.Steps.{difference, Walked, Ready, Divisible, RowDivided, Divided, Joined, Interpolated};
ghost use Rattle.parity.specs.Lists.{Written};

use crate::runs::join_run;
use gtb::add_mod;
use gtb::code::Code;

// How far direction t + 1 moves a line from one row to the next.
fn shift(code: Code, t: usize) -> usize
    requires { suc t < code.shape.n }
    ensures { result ≡ shift_of code.shape t }
{
    let q = code.shape.q as usize;
    q - gtb::slope(code.shape, t + 1)
}

// Once round the cycle in steps of `delta`, taking up the difference of the rows t and k. The value is carried along: read back from the
// array, each step would wait for the last one's store.
fn walk(word: &[u32], q: usize, k: usize, t: usize, delta: usize) -> [u32; 32]
    requires { (1 ≤ q) × (q ≤ 31) × (delta < q) × (k * q + q ≤ length word.now) × (t * q + q ≤ length word.now) × Cyclic q (difference q word.now k t) }
    ensures { Walked q delta (difference q word.now k t) result }
{
    let mut walked = [0u32; 32];
    let mut u = 0;
    let mut value: u32 = 0;
    let last = q - 1;
    for i in 0..last {
        value ^= word[t * q + u] ^ word[k * q + u];
        u = add_mod(u, delta, q);
        walked[u] = value;
    }
    walked
}

// What was walked from place `from` on, with the total added, goes to place a.
// Kept as it is: of what is written through iter_mut() and zip(..), a proof knows the length alone.
fn store_run(word: &mut [u32], walked: &[u32], total: u32, a: usize, from: usize, count: usize)
    requires { (a + count ≤ length word.old) × (from + count ≤ length walked.now) }
    ensures { Written a count (λ c. at walked.now (from + c) ⊕ total) word.old word.new }
{
    for c in 0..count {
        word[a + c] = walked[from + c] ^ total;
    }
}

// The row at place a becomes what was walked, moved by z, with the total added: the columns before the wrap, then those after it.
fn store_row(word: &mut [u32], walked: &[u32], total: u32, q: usize, a: usize, z: usize)
    requires { (1 ≤ q) × (q ≤ 31) × (z ≤ q) × (a + q ≤ length word.old) × (length walked.now ≡ 32) }
    ensures { Written a q (λ c. at walked.now ((c + z) % q) ⊕ total) word.old word.new }
{
    let rest = q - z;
    store_run(word, walked, total, a, z, rest);
    store_run(word, walked, total, a + rest, 0, z);
}

// Row t becomes its difference from row k, divided by the difference of their shifts.
fn divide_row(code: Code, word: &mut [u32], k: usize, t: usize)
    requires { Divisible code.shape k t word.old }
    ensures { RowDivided code.shape k t word.old word.new }
{
    let q = code.shape.q as usize;
    let z = q - shift(code, k);
    let delta = add_mod(z, shift(code, t), q);
    let walked = walk(word, q, k, t, delta);
    let total = syndrome::run_sum(&walked, 0, q);
    store_row(word, &walked, total, q, t * q, z);
}

// Each row from k + 1 to n - 2 is divided.
fn divide(code: Code, word: &mut [u32], k: usize)
    requires { Ready code.shape k word.old }
    ensures { Divided code.shape k (code.shape.n - 1) word.old word.new }
{
    let n = code.shape.n as usize;
    let m = n - 1;
    for t in k + 1..m {
        divide_row(code, word, k, t);
    }
}

// The row at place a takes the next one in, moved by x.
fn join_row(word: &mut [u32], q: usize, a: usize, x: usize)
    requires { (1 ≤ q) × (q ≤ 31) × (x ≤ q) × (a + q + q ≤ length word.old) }
    ensures { Written a q (λ c. at word.old (a + c) ⊕ at word.old (a + q + (c + x) % q)) word.old word.new }
{
    let rest = q - x;
    join_run(word, a, a + q + x, rest);
    join_run(word, a + rest, a + q, x);
}

// Each row from k to n - 3 takes the next one in.
fn join(code: Code, word: &mut [u32], k: usize)
    requires { (length word.old ≡ word_length code.shape) × (suc k < code.shape.n) }
    ensures { Joined code.shape.q (shift_of code.shape k) k (code.shape.n - 2) word.old word.new }
{
    let q = code.shape.q as usize;
    let n = code.shape.n as usize;
    let last = n - 2;
    let x = shift(code, k);
    for r in k..last {
        join_row(word, q, r * q, x);
    }
}

// The upper rows from k on become those that take, at the shift of each, the value that its row had.
pub fn interpolate(code: Code, word: &mut [u32], k: usize)
    requires { Ready code.shape k word.old }
    ensures { Interpolated code.shape k word.old word.new }
{
    let n = code.shape.n as usize;
    if k + 2 < n {
        divide(code, word, k);
        interpolate(code, word, k + 1);
        join(code, word, k);
    }
}
