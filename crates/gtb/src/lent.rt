// The tests of a lent word.
ghost use Rattle.std.specs.Prelude.{◌≡◌};
ghost use Rattle.gtb.specs.Shape.{Lawful};
ghost use Rattle.gtb.specs.Lent.{word_status};

use crate::code::Code;
use crate::{Refusal, Shape};

// Tests 2 and 3, past those of the shape.
pub fn word_status(shape: Shape, word: &[u32]) -> Result<(), Refusal>
    requires { Lawful shape }
    ensures { result ≡ word_status shape word.now }
{
    let code = Code { shape };
    code.test_word(word)
}
