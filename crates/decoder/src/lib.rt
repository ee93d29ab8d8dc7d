// Reading a damaged word, the clean way.
#![tactic(auto)]

mod correct;
mod error;
mod locate;
mod looking;

ghost use Rattle.paper.specs.Reading as paper;
ghost use Rattle.gtb.specs.Answer.{status_number};
ghost use Rattle.gtb.specs.Shape.{of};
ghost use Rattle.gtb.specs.Answer.{answer_number};
ghost use Rattle.decoder.specs.Decode.{Decoding};
ghost use Rattle.decoder.specs.Looking.{Looking};

use correction::checks::Checks;
use correction::test;
use gtb::code::Code;
use gtb::{Refusal, Shape};

// Reading: tests 1, 18, 2, 3, then the work.
pub fn decode(shape: Shape, word: &mut [u32]) -> Result<u32, Refusal>
    ensures read { Decoding shape word.old word.new result }
    ensures paper { paper.Reading (of shape) 0 word.old word.new (answer_number result) }
{
    let checks = test(shape, true, word)?;
    correct::correct(checks, word)
}

// How many checks of each symbol reading looks at, by reading's own judging: tests 1, 18, 2, 3, then the list.
pub fn looked(shape: Shape, word: &[u32], looked: &mut [u32]) -> Result<(), Refusal>
    ensures looked { Looking shape word.now looked.old looked.new result }
    ensures paper { paper.Looking (of shape) word.now looked.old looked.new (status_number result) }
{
    let code = Code::of(shape)?;
    if looked.len() != code.word_length() {
        return Err(Refusal::Length);
    }
    code.test_word(word)?;
    looking::note(Checks::from(code), word, looked);
    Ok(())
}
