// The code of the trace square: its shape, and the answers that every entry gives.
#![tactic(auto)]

pub mod code;
pub mod lent;
pub mod number;
pub mod size;

ghost use Rattle.std.specs.Prelude.{◌≡◌, true, ◌++◌, ◌+◌, ◌%◌, ◌≤◌, ◌<◌, length, drop, replicate};
ghost use Rattle.parity.specs.Lists.{Written};
ghost use Rattle.gtb.specs.Shape.{slope_of, is_order, regular, fits_slope, sloped, lawful, shape_refusal, Lawful, word_length, info_length};
ghost use Rattle.gtb.specs.Square.{at, narrow};
ghost use Rattle.gtb.specs.Positions.{extract_of};

use crate::code::Code;

// (q, n, b): order, directions and width in bits; then the slopes of the directions from 1 on, of which the first n - 1 count.
// A caller's shape may hold any numbers.
#[derive(Clone, Copy)]
pub struct Shape {
    pub q: u32,
    pub n: u32,
    pub b: u32,
    pub slopes: [u32; 7],
}

// What is turned down; specs/Answer.antt has the numbers. Three have another word in the trade.
#[derive(Clone, Copy)]
pub enum Refusal {
    Shape = 1,
    Length = 2,
    Width = 3,
    Uncorrectable = 4, // damage
    Page = 5,
    Count = 6,
    Function = 7,
    Tail = 8,
    Overflow = 9, // worn
    Syntax = 10, // text
    Figures = 11,
    Places = 12,
    Unfillable = 13,
    Ambiguous = 14,
    NoMajority = 15,
    Directions = 16,
    BeyondTwo = 17,
    Slope = 18,
    Bill = 19,
    Far = 20,
}

// The slopes 0, 1, 2, ..
pub const STANDARD: [u32; 7] = [0, 1, 2, 3, 4, 5, 6];

// The slope of direction t, from 1 on.
#[tactic(auto, unfolding(crate::specs::Shape::slope_of))]
pub fn slope(shape: Shape, t: usize) -> usize
    requires { (1 ≤ t) × (t < 8) }
    ensures { result ≡ slope_of shape t }
{
    let at = t - 1;
    shape.slopes[at] as usize
}

// The orders, as specs/Shape.antt has them.
const ORDERS: [u32; 10] = [3, 5, 7, 11, 13, 17, 19, 23, 29, 31];

// q is one of the ten orders.
fn is_order(q: u32) -> bool
    ensures { result ≡ is_order q }
{
    ORDERS.iter().any(|order| *order == q)
}

// Test 1 on a caller's shape.
#[tactic(auto, unfolding(crate::specs::Shape::regular))]
fn is_regular(shape: Shape) -> bool
    ensures { result ≡ regular shape }
{
    is_order(shape.q)
        && 2 <= shape.n
        && shape.n <= shape.q
        && shape.n <= 8
        && 1 <= shape.b
        && shape.b <= 32
}

// The slope at place t is below q and stands at no place before it.
fn fits_slope(q: u32, slopes: &[u32; 7], t: usize) -> bool
    requires { t < 7 }
    ensures { result ≡ fits_slope q slopes.now t }
{
    let slope = slopes[t];
    slope < q && slopes[..t].iter().all(|other| *other != slope)
}

// Test 18, past test 1.
fn is_sloped(shape: Shape) -> bool
    requires { regular shape ≡ true }
    ensures { result ≡ sloped shape }
{
    let n = shape.n as usize;
    let last = n - 1;
    (0..last).all(|t| fits_slope(shape.q, &shape.slopes, t))
}

// Both tests.
#[tactic(auto, unfolding(crate::specs::Shape::lawful))]
pub fn is_lawful(shape: Shape) -> bool
    ensures { result ≡ lawful shape }
{
    is_regular(shape) && is_sloped(shape)
}

// Which of them turns a shape down.
#[tactic(auto, unfolding(crate::specs::Shape::shape_refusal))]
pub fn shape_refusal(shape: Shape) -> Refusal
    ensures { result ≡ shape_refusal shape }
{
    if is_regular(shape) {
        return Refusal::Slope;
    }
    Refusal::Shape
}

// Every symbol is below 2^b if the bits of them all are. There is no early exit, so that it is compiled for several symbols at once.
fn are_below(symbols: &[u32], b: u32) -> bool
    requires { b ≤ 32 }
    ensures { result ≡ narrow b symbols.now }
{
    let bits = symbols.iter().fold(0, |bits, x| bits | *x);
    (bits as u64) < 1u64 << b
}

// Test 3. Every u32 is below 2^32, so that there is nothing to look at if b is 32.
pub fn is_narrow(symbols: &[u32], b: u32) -> bool
    requires { b ≤ 32 }
    ensures { result ≡ narrow b symbols.now }
{
    if b == 32 {
        return true;
    }
    are_below(symbols, b)
}

// Copies `from` to the front of `to`.
// Kept as a loop: between two lists that are both lent, `copy_from_slice` is a call of memmove, which the archive for C is not to need.
pub fn copy(from: &[u32], to: &mut [u32])
    requires { length from.now ≤ length to.old }
    ensures { to.new ≡ from.now ++ drop (length from.now) to.old }
{
    for i in 0..from.len() {
        to[i] = from[i];
    }
}

// Copies `count` symbols of `from`, from place `start` on, to place `a` of `to`.
// Kept as a loop: with copy_from_slice the compiler makes no code of its own for each order any more, and writing takes up to twice as long.
pub fn copy_run(to: &mut [u32], from: &[u32], a: usize, start: usize, count: usize)
    requires { (a + count ≤ length to.old) × (start + count ≤ length from.now) }
    ensures { Written a count (λ i. at from.now (start + i)) to.old to.new }
{
    for i in 0..count {
        to[a + i] = from[start + i];
    }
}

// The same of a lawful shape that is not held as a code.
pub fn gather(shape: Shape, word: &[u32], symbols: &mut [u32])
    requires { (Lawful shape) × (length word.now ≡ word_length shape) × (length symbols.old ≡ info_length shape) }
    ensures { symbols.new ≡ extract_of shape word.now }
{
    let code = Code { shape };
    code.gather(word, symbols);
}

// (a + b) mod q.
pub fn add_mod(a: usize, b: usize, q: usize) -> usize
    requires { (a < q) × (b ≤ q) × (q ≤ 31) }
    ensures { (result ≡ (a + b) % q) × (result < q) }
{
    let sum = a + b;
    if sum < q { sum } else { sum - q }
}
