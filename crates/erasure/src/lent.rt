// The tests of a lent word, a list of places and a scratch. Filling in and restoring make the same.
ghost use Rattle.std.specs.Prelude.{◌≡◌, MatchResult, Ok, Err};
ghost use Rattle.gtb.specs.Shape.{Lawful};
ghost use Rattle.erasure.specs.Steps.{length_tests, value_tests};

use crate::list::is_rising;
use gtb::code::Code;
use gtb::size::word_length;
use gtb::{Refusal, Shape};

// Tests 1, 18 and 2; past them the code is at hand.
pub fn test_lengths(shape: Shape, word: &[u32], scratch: &[u32]) -> Result<Code, Refusal>
    ensures { MatchResult result
        (λ code. (code.shape ≡ shape) × (length_tests shape word.now scratch.now ≡ Ok tt))
        (λ e. length_tests shape word.now scratch.now ≡ Err e) }
{
    let code = Code::of(shape)?;
    if word.len() != code.word_length() || scratch.len() != code.scratch_length() {
        return Err(Refusal::Length);
    }
    Ok(code)
}

// Tests 3 and 12, past those.
pub fn test_values(shape: Shape, word: &[u32], places: &[u32]) -> Result<(), Refusal>
    requires { Lawful shape }
    ensures { result ≡ value_tests shape word.now places.now }
{
    if !gtb::is_narrow(word, shape.b) {
        return Err(Refusal::Width);
    }
    if !is_rising(places, word_length(shape)) {
        return Err(Refusal::Places);
    }
    Ok(())
}
