// Filling in the symbols at places that are named as gone.
#![tactic(auto)]

pub mod lent;
pub mod list;
mod system;

ghost use Rattle.std.specs.Prelude.{◌≡◌, List, ℕ, length};
ghost use Rattle.paper.specs.DeadCells as paper;
ghost use Rattle.gtb.specs.Shape.{of, Lawful, word_length, scratch_length};
ghost use Rattle.gtb.specs.Square.{Word, Syndromes};
ghost use Rattle.gtb.specs.Answer.{answer_number};
ghost use Rattle.erasure.specs.Fill.{Decision, Filling};
ghost use Rattle.erasure.specs.Steps.{Places, Solution, PlacesTested};

use correction::checks::Checks;
use elimination::{Outcome, eliminate};
use gtb::size::kept_checks;
use gtb::{Refusal, Shape};
use lent::{test_lengths, test_values};
use list::apply;
use syndrome::syndromes;
use system::{ask, mark_places};

// The changes at the places that make a word with these syndromes a codeword: how many such lists of changes there are, and the one.
// Unknown k is the change at place k, so that a row needs as many bits as there are places.
fn solve(
    checks: Checks,
    syn: &[u32; 248],
    places: &[u32],
    scratch: &mut [u32],
    changes: &mut [u32; 248],
) -> Outcome
    requires { Places (word_length checks.shape) places.now
        × (length scratch.old ≡ scratch_length checks.shape) × (length changes.old ≡ 248) }
    ensures { (word : List ℕ) → Word checks.shape word → Syndromes checks.shape word syn.now
        → Solution checks.shape word places.now result changes.new }
{
    let rows = kept_checks(checks.shape);
    let count = places.len();
    let width = (count + 31) / 32;
    scratch.fill(0);
    mark_places(checks, width, scratch, places);
    ask(checks.shape, syn, changes);
    eliminate(rows, width, count, scratch, changes)
}

// Tests 13 and 14, by the word's syndromes: the word is written only if there is no choice.
pub fn decide(
    checks: Checks,
    word: &mut [u32],
    syn: &[u32; 248],
    places: &[u32],
    scratch: &mut [u32],
) -> Result<u32, Refusal>
    requires { Word checks.shape word.old × Places (word_length checks.shape) places.now
        × (length scratch.old ≡ scratch_length checks.shape) × Syndromes checks.shape word.old syn.now }
    ensures { Decision checks.shape word.old places.now word.new result }
{
    let mut changes = [0u32; 248];
    match solve(checks, syn, places, scratch, &mut changes) {
        Outcome::Unsolvable => Err(Refusal::Unfillable),
        Outcome::Ambiguous => Err(Refusal::Ambiguous),
        Outcome::Solved => Ok(apply(word, places, &changes)),
    }
}

// Tests 3 and 12, then the work.
fn judge(
    checks: Checks,
    word: &mut [u32],
    places: &[u32],
    scratch: &mut [u32],
) -> Result<u32, Refusal>
    requires { (length word.old ≡ word_length checks.shape) × (length scratch.old ≡ scratch_length checks.shape) }
    ensures { PlacesTested checks.shape word.old places.now word.new result }
{
    test_values(checks.shape, word, places)?;
    let syn = syndromes(checks.shape, word);
    decide(checks, word, &syn, places, scratch)
}

// Filling in: tests 1, 18, 2, then the others. From test 3 on the scratch ends as zeros.
pub fn fill(
    shape: Shape,
    word: &mut [u32],
    places: &[u32],
    scratch: &mut [u32],
) -> Result<u32, Refusal>
    ensures filled { Filling shape word.old places.now scratch.old word.new scratch.new result }
    ensures paper { paper.Filling (of shape) word.old places.now scratch.old word.new scratch.new (answer_number result) }
{
    let code = test_lengths(shape, word, scratch)?;
    let answer = judge(Checks::from(code), word, places, scratch);
    scratch.fill(0);
    answer
}
