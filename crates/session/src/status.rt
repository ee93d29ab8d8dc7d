// The tests that come before a word is looked at, in their order. `agree` says whether the session's figures are what its marks say, so that one order serves a session by value and one that is lent as values.
ghost use Rattle.std.specs.Prelude.{◌≡◌};
ghost use Rattle.session.specs.Named.{Admits};
ghost use Rattle.session.specs.Steps.{session_tests, arrival_tests, word_tests};

use crate::way::Way;
use gtb::code::Code;
use gtb::size::{scratch_length, word_length};
use gtb::{Refusal, Shape};

// Tests 1, 18 and 11.
pub fn session_status(shape: Shape, agree: bool) -> Result<(), Refusal>
    ensures { result ≡ session_tests shape agree }
{
    Code::of(shape)?;
    if !agree {
        return Err(Refusal::Figures);
    }
    Ok(())
}

// Tests 1, 18, 11 and 16, for arrivals that name the way with this number.
pub fn arrival_status(shape: Shape, number: u32, agree: bool) -> Result<Way, Refusal>
    ensures { Admits (arrival_tests shape number agree) number result }
{
    let way = Way::try_from(number)?;
    session_status(shape, agree)?;
    if !way.suits(shape) {
        return Err(Refusal::Directions);
    }
    Ok(way)
}

// These and test 2, for one word.
pub fn word_status(
    shape: Shape,
    number: u32,
    agree: bool,
    word: &[u32],
    scratch: &[u32],
) -> Result<Way, Refusal>
    ensures { Admits (word_tests shape number agree word.now scratch.now) number result }
{
    let way = arrival_status(shape, number, agree)?;
    if word.len() != word_length(shape) {
        return Err(Refusal::Length);
    }
    if scratch.len() != scratch_length(shape) {
        return Err(Refusal::Length);
    }
    Ok(way)
}
