// Reading a word with at most n - 1 wrong symbols, whether they cancel on a check or not.
#![tactic(auto)]

mod restore;
mod search;

ghost use Rattle.paper.specs.Beyond.{Nearest};
ghost use Rattle.gtb.specs.Shape.{of};
ghost use Rattle.gtb.specs.Answer.{answer_number};
ghost use Rattle.nearest.specs.Nearest.{Restoring};

use correction::test;
use gtb::{Refusal, Shape};

// Reading the nearest codeword: tests 1, 18, 2, 3, then the work.
pub fn decode_nearest(shape: Shape, word: &mut [u32]) -> Result<u32, Refusal>
    ensures read { Restoring shape word.old word.new result }
    ensures paper { Nearest (of shape) word.old word.new (answer_number result) }
{
    let checks = test(shape, true, word)?;
    restore::restore(checks, word)
}
