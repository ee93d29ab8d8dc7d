// The lengths that a shape asks of what is lent, of a lawful shape that is not held as a code.
ghost use Rattle.std.specs.Prelude.{◌≡◌};
ghost use Rattle.gtb.specs.Shape.{Lawful, word_length, info_length, kept_checks, scratch_length};

use crate::Shape;
use crate::code::Code;

pub fn word_length(shape: Shape) -> usize
    requires { Lawful shape }
    ensures { result ≡ word_length shape }
{
    let code = Code { shape };
    code.word_length()
}

pub fn info_length(shape: Shape) -> usize
    requires { Lawful shape }
    ensures { result ≡ info_length shape }
{
    let code = Code { shape };
    code.info_length()
}

pub fn kept_checks(shape: Shape) -> usize
    requires { Lawful shape }
    ensures { result ≡ kept_checks shape }
{
    let code = Code { shape };
    code.kept_checks()
}

pub fn scratch_length(shape: Shape) -> usize
    requires { Lawful shape }
    ensures { result ≡ scratch_length shape }
{
    let code = Code { shape };
    code.scratch_length()
}
