// The work on a word of lawful shape, length and width. Nothing is written to it before the answer is known.
ghost use Rattle.gtb.specs.Square.{Word};
ghost use Rattle.correction.specs.Steps.{Corrects};
ghost use Rattle.nearest.specs.Nearest.{nearest};

use crate::search::find;
use correction::apply;
use correction::checks::Checks;
use gtb::Refusal;

// Test 20: the word is restored, or left as it came. Where every check is silent nothing is to be found.
pub fn restore(checks: Checks, word: &mut [u32]) -> Result<u32, Refusal>
    requires { Word checks.shape word.old }
    ensures { Corrects nearest checks.shape word.old word.new result }
{
    let mut syn = [0u32; 248];
    syndrome::fill(checks.shape, word, &mut syn);
    if checks.is_silent(&syn) {
        return Ok(0);
    }
    let mut places = [0usize; 8];
    let mut errors = [0u32; 8];
    let Some(count) = find(checks, &mut syn, &mut places, &mut errors) else {
        return Err(Refusal::Far);
    };
    apply(checks.shape, word, &places, &errors, count);
    Ok(count as u32)
}
