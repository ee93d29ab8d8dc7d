// The work on a word of lawful shape, length and width. Nothing is written to it before the answer is known.
ghost use Rattle.std.specs.Prelude.{◌≡◌, not, length};
ghost use Rattle.parity.specs.Lists.{Begins};
ghost use Rattle.gtb.specs.Square.{at, Word, Syndromes};
ghost use Rattle.correction.specs.Steps.{Within, Found, Corrects};
ghost use Rattle.majority.specs.Majority as rule;
ghost use Rattle.majority.specs.Steps.{voted_in, too_many_changes};

use crate::locate::locate;
use crate::vote::vote;
use correction::apply;
use correction::checks::Checks;
use gtb::Refusal;

// The changes at the first `count` places.
fn evaluate(
    checks: Checks,
    syn: &[u32; 248],
    places: &[usize; 8],
    errors: &mut [u32; 8],
    count: usize,
)
    requires { (length errors.old ≡ 8) × Within checks.shape count places.now }
    ensures { Begins 8 count (λ x. voted_in checks.shape syn.now (at places.now x)) errors.new }
{
    for x in 0..count {
        errors[x] = vote(checks, syn, places[x]);
    }
}

// The changes, places and errors: how many, or none if they do not silence every check. They are tried on `syn`.
fn find(
    checks: Checks,
    syn: &mut [u32; 248],
    loud: bool,
    places: &mut [usize; 8],
    errors: &mut [u32; 8],
) -> Option<usize>
    requires { (length syn.old ≡ 248) × (length places.old ≡ 8) × (length errors.old ≡ 8) }
    ensures { Found rule.vote checks.shape (not loud) syn.old places.new errors.new result }
{
    let count = locate(checks, syn, loud, places)?;
    evaluate(checks, syn, places, errors, count);
    checks.cancel(syn, places, errors, count);
    if checks.is_silent(syn) {
        return Some(count);
    }
    None
}

// Test 15, with every row looked at: the word is corrected, or left as it came.
fn correct_all(checks: Checks, word: &mut [u32], syn: &mut [u32; 248]) -> Result<u32, Refusal>
    requires { Word checks.shape word.old × Syndromes checks.shape word.old syn.old }
    ensures { Corrects rule.vote checks.shape word.old word.new result }
{
    let mut places = [0usize; 8];
    let mut errors = [0u32; 8];
    let Some(count) = find(checks, syn, false, &mut places, &mut errors) else {
        return Err(Refusal::NoMajority);
    };
    apply(checks.shape, word, &places, &errors, count);
    Ok(count as u32)
}

// Test 15. Where every check is silent nothing is to be found. Mostly the damage is in rows that show it; what is found there is the
// answer if it silences every check. Else damage hides in other rows, or there is too much of it, and every row is looked at.
pub fn correct(checks: Checks, word: &mut [u32]) -> Result<u32, Refusal>
    requires { Word checks.shape word.old }
    ensures { Corrects rule.vote checks.shape word.old word.new result }
{
    let mut syn = syndrome::syndromes(checks.shape, word);
    if checks.is_silent(&syn) {
        return Ok(0);
    }
    let mut tried = syn;
    let mut places = [0usize; 8];
    let mut errors = [0u32; 8];
    let Some(few) = find(checks, &mut tried, true, &mut places, &mut errors) else {
        return correct_all(checks, word, &mut syn);
    };
    apply(checks.shape, word, &places, &errors, few);
    Ok(few as u32)
}
