// Reading a word with at most two wrong symbols, whether they cancel on a check or not.
#![tactic(auto)]

mod attempt;
pub mod lines;
mod restore;

ghost use Rattle.paper.specs.Reading.{Reading};
ghost use Rattle.gtb.specs.Shape.{of};
ghost use Rattle.gtb.specs.Answer.{answer_number};
ghost use Rattle.double.specs.Double.{ReadingTwo};

use correction::test;
use gtb::{Refusal, Shape};

// Two corrections, x at position a and y at position b.
#[derive(Clone, Copy)]
struct Pair {
    a: usize,
    b: usize,
    x: u32,
    y: u32,
}

// Reading two wrong symbols: tests 1, 18, 16, 2, 3, then the work.
pub fn decode_two(shape: Shape, word: &mut [u32]) -> Result<u32, Refusal>
    ensures read { ReadingTwo shape word.old word.new result }
    ensures paper { Reading (of shape) 2 word.old word.new (answer_number result) }
{
    let checks = test(shape, 3 <= shape.n, word)?;
    restore::restore(checks, word)
}
