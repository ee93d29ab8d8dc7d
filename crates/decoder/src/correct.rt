// The work on a word of lawful shape, length and width. Nothing is written to it before the answer is known.
ghost use Rattle.std.specs.Prelude.{◌≡◌, true, length};
ghost use Rattle.gtb.specs.Square.{Word};
ghost use Rattle.correction.specs.Steps.{Found, Corrects};
ghost use Rattle.decoder.specs.Decode.{clean};

use crate::error::evaluate;
use crate::locate::locate;
use correction::apply;
use correction::checks::Checks;
use gtb::Refusal;

// The corrections, places and errors: how many, or none if they do not silence every check. They are tried on `syn`.
fn find(
    checks: Checks,
    syn: &mut [u32; 248],
    places: &mut [usize; 8],
    errors: &mut [u32; 8],
) -> Option<usize>
    requires { (length syn.old ≡ 248) × (length places.old ≡ 8) × (length errors.old ≡ 8) }
    ensures { Found clean checks.shape true syn.old places.new errors.new result }
{
    let count = locate(checks, syn, places)?;
    evaluate(checks, syn, places, count, errors);
    checks.cancel(syn, places, errors, count);
    if checks.is_silent(syn) {
        return Some(count);
    }
    None
}

// Test 4: the word is corrected, or left as it came. Where every check is silent nothing is to be found.
pub fn correct(checks: Checks, word: &mut [u32]) -> Result<u32, Refusal>
    requires { Word checks.shape word.old }
    ensures { Corrects clean checks.shape word.old word.new result }
{
    let mut syn = [0u32; 248];
    syndrome::fill(checks.shape, word, &mut syn);
    if checks.is_silent(&syn) {
        return Ok(0);
    }
    let mut places = [0usize; 8];
    let mut errors = [0u32; 8];
    let Some(count) = find(checks, &mut syn, &mut places, &mut errors) else {
        return Err(Refusal::Uncorrectable);
    };
    apply(checks.shape, word, &places, &errors, count);
    Ok(count as u32)
}
