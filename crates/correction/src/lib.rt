// What the ways of reading share: tests and answer, the checks on a position and what they show, corrections tried on the syndromes and
// written to the word.
#![tactic(auto)]

pub mod cancel;
pub mod checks;
pub mod guesses;
pub mod row;
pub mod shipped;
pub mod table;
pub mod values;

ghost use Rattle.std.specs.Prelude.{◌≡◌, length, MatchResult, Ok, Err};
ghost use Rattle.gtb.specs.Shape.{word_length};
ghost use Rattle.correction.specs.Steps.{tests_of, Within, Mends};

use checks::Checks;
use gtb::code::Code;
use gtb::{Refusal, Shape};

// Tests 1, 18, 16, 2, 3; past them the checks are at hand. `suits` says whether the way of reading can be used with the shape.
pub fn test(shape: Shape, suits: bool, word: &[u32]) -> Result<Checks, Refusal>
    ensures { MatchResult result
        (λ checks. (checks.shape ≡ shape) × (tests_of shape suits word.now ≡ Ok tt))
        (λ e. tests_of shape suits word.now ≡ Err e) }
{
    let code = Code::of(shape)?;
    if !suits {
        return Err(Refusal::Directions);
    }
    code.test_word(word)?;
    Ok(Checks::from(code))
}

// The corrections are taken off the word.
pub fn apply(shape: Shape, word: &mut [u32], places: &[usize; 8], errors: &[u32; 8], count: usize)
    requires { (length word.old ≡ word_length shape) × Within shape count places.now }
    ensures { Mends shape count places.now errors.now word.old word.new }
{
    for x in 0..count {
        let j = places[x];
        word[j] ^= errors[x];
    }
}
