// The work on a word of lawful shape, length and width. Nothing is written to it before the answer is known.
ghost use Rattle.std.specs.Prelude.{◌≡◌, ◌<◌, length};
ghost use Rattle.gtb.specs.Shape.{word_length};
ghost use Rattle.gtb.specs.Square.{Word};
ghost use Rattle.correction.specs.Steps.{Corrects};
ghost use Rattle.double.specs.Double.{two};
ghost use Rattle.double.specs.Steps.{without, pair_changes};

use crate::Pair;
use crate::attempt::find;
use correction::apply;
use correction::checks::Checks;
use gtb::{Refusal, Shape};
use syndrome::syndromes;

// How many positions the pair changes.
fn changed(shape: Shape, pair: Pair) -> u32
    requires { (pair.a < word_length shape) × (pair.b < word_length shape) }
    ensures { result ≡ pair_changes shape pair }
{
    if pair.a == pair.b {
        return (pair.x ^ pair.y != 0) as u32;
    }
    (pair.x != 0) as u32 + (pair.y != 0) as u32
}

// The pair is taken off the word.
fn take_off(shape: Shape, word: &mut [u32], pair: Pair)
    requires { (length word.old ≡ word_length shape) × (pair.a < word_length shape) × (pair.b < word_length shape) }
    ensures { word.new ≡ without shape word.old pair }
{
    let places = [pair.a, pair.b, 0, 0, 0, 0, 0, 0];
    let errors = [pair.x, pair.y, 0, 0, 0, 0, 0, 0];
    apply(shape, word, &places, &errors, 2);
}

// Test 17: the word is restored, or left as it came. Where every check is silent nothing is to be found.
pub fn restore(checks: Checks, word: &mut [u32]) -> Result<u32, Refusal>
    requires { (2 < checks.shape.n) × Word checks.shape word.old }
    ensures { Corrects two checks.shape word.old word.new result }
{
    let syn = syndromes(checks.shape, word);
    if checks.is_silent(&syn) {
        return Ok(0);
    }
    let pair = find(checks, &syn).ok_or(Refusal::BeyondTwo)?;
    let count = changed(checks.shape, pair);
    take_off(checks.shape, word, pair);
    Ok(count)
}
