// Reading a damaged word by vote.
#![tactic(auto)]

mod correct;
mod locate;
mod vote;

ghost use Rattle.std.specs.Prelude.{◌^◌, ◌<◌};
ghost use Rattle.paper.specs.Reading.{Reading, Voted};
ghost use Rattle.gtb.specs.Shape.{of};
ghost use Rattle.gtb.specs.Answer.{answer_number};
ghost use Rattle.majority.specs.Majority.{Voting};

use correction::test;
use gtb::{Refusal, Shape};

// Reading by vote: tests 1, 18, 2, 3, then the work.
pub fn decode_majority(shape: Shape, word: &mut [u32]) -> Result<u32, Refusal>
    ensures read { Voting shape word.old word.new result }
    ensures paper { Reading (of shape) 1 word.old word.new (answer_number result) }
    ensures voted { answer_number result < 2 ^ 31 → Voted (of shape) word.old word.new }
{
    let checks = test(shape, true, word)?;
    correct::correct(checks, word)
}
