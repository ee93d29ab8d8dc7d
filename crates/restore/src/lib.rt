// Dead cells and damage together, up to half the distance between codewords.
#![tactic(auto)]

mod list;
mod marks;
mod search;
mod suspects;

ghost use Rattle.std.specs.Prelude.{◌≡◌, ◌*◌, ◌≤◌, length};
ghost use Rattle.paper.specs.Beyond.{Restoring};
ghost use Rattle.gtb.specs.Shape.{of, word_length, scratch_length};
ghost use Rattle.gtb.specs.Square.{Word};
ghost use Rattle.gtb.specs.Answer.{answer_number};
ghost use Rattle.erasure.specs.Steps.{Places};
ghost use Rattle.restore.specs.Restore.{Judgement, Recovering};
ghost use Rattle.restore.specs.Steps.{Judged};

use correction::checks::Checks;
use erasure::decide;
use erasure::lent::{test_lengths, test_values};
use gtb::{Refusal, Shape};
use search::find;
use syndrome::syndromes;

// With 2n places or more nothing beside them is in reach, so they are filled in.
fn fill_in(
    checks: Checks,
    word: &mut [u32],
    places: &[u32],
    scratch: &mut [u32],
) -> Result<u32, Refusal>
    requires { Word checks.shape word.old × Places (word_length checks.shape) places.now
        × (length scratch.old ≡ scratch_length checks.shape) × (2 * checks.shape.n ≤ length places.now) }
    ensures { Judgement checks.shape word.old places.now word.new result }
{
    let syn = syndromes(checks.shape, word);
    match decide(checks, word, &syn, places, scratch) {
        Ok(changed) => Ok(changed),
        Err(Refusal::Ambiguous) => Err(Refusal::Ambiguous),
        Err(_) => Err(Refusal::Far),
    }
}

// Tests 3 and 12, then the work: with few places the search looks for a codeword in reach.
fn judge(
    checks: Checks,
    word: &mut [u32],
    places: &[u32],
    scratch: &mut [u32],
) -> Result<u32, Refusal>
    requires { (length word.old ≡ word_length checks.shape) × (length scratch.old ≡ scratch_length checks.shape) }
    ensures { Judged checks.shape word.old places.now word.new result }
{
    test_values(checks.shape, word, places)?;
    let n = checks.shape.n as usize;
    if 2 * n <= places.len() {
        return fill_in(checks, word, places, scratch);
    }
    find(checks, word, scratch, places).ok_or(Refusal::Far)
}

// Restoring: tests 1, 18, 2, then the others. From test 3 on the scratch ends as zeros.
pub fn restore(
    shape: Shape,
    word: &mut [u32],
    places: &[u32],
    scratch: &mut [u32],
) -> Result<u32, Refusal>
    ensures restored { Recovering shape word.old places.now scratch.old word.new scratch.new result }
    ensures paper { Restoring (of shape) word.old places.now scratch.old word.new scratch.new (answer_number result) }
{
    let code = test_lengths(shape, word, scratch)?;
    let answer = judge(Checks::from(code), word, places, scratch);
    scratch.fill(0);
    answer
}
