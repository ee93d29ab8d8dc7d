// Checking a proposal: a word that somebody else restored, against the word that was received. Both are only read.
#![tactic(auto)]

mod compare;
mod locate;
pub mod number;

ghost use Rattle.paper.specs.Reading as paper;
ghost use Rattle.gtb.specs.Shape.{of};
ghost use Rattle.verify.specs.Verify.{verdict_number, Checking};

use correction::checks::Checks;
use gtb::code::Code;
use gtb::{Refusal, Shape};

// Tests 1, 18, 2, 3, then yes or no. The proposal's length is tested first, so that test 2 is over with both words before test 3.
pub fn check(shape: Shape, received: &[u32], proposed: &[u32]) -> Result<bool, Refusal>
    ensures checked { Checking shape received.now proposed.now result }
    ensures paper { paper.Checking (of shape) received.now proposed.now (verdict_number result) }
{
    let code = Code::of(shape)?;
    if proposed.len() != code.word_length() {
        return Err(Refusal::Length);
    }
    code.test_word(received)?;
    code.test_word(proposed)?;
    Ok(compare::is_restored(Checks::from(code), received, proposed))
}
