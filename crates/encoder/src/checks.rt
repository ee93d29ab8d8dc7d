// The upper rows before they are interpolated: what each direction from 1 on shows of the rows that were put down.
ghost use Rattle.std.specs.Prelude.{◌≡◌, ◌+◌, ◌*◌, ◌≤◌, length};
ghost use Rattle.parity.specs.Xor.{xor_sum};
ghost use Rattle.gtb.specs.Shape.{word_length};
ghost use Rattle.gtb.specs.Square.{at};
ghost use Rattle.parity.specs.Lists.{Written};
ghost use Rattle.encoder.specs.Steps.{Raised};

use crate::runs::join_run;
use gtb::code::Code;
use syndrome::flat::is_flat;

// Row 0 takes in every other row.
fn stack_by<const Q: usize>(word: &mut [u32])
    requires { (1 ≤ Q) × (Q ≤ 31) × (length word.old ≡ Q * Q) }
    ensures { Written 0 Q (λ c. xor_sum Q (λ r. at word.old (r * Q + c))) word.old word.new }
{
    for r in 1..Q {
        join_run(word, 0, r * Q, Q);
    }
}

// The same with the order as a literal, so that the compiler knows how long a row is.
fn stack(code: Code, word: &mut [u32])
    requires { length word.old ≡ word_length code.shape }
    ensures { Written 0 code.shape.q (λ c. xor_sum code.shape.q (λ r. at word.old (r * code.shape.q + c))) word.old word.new }
{
    let q = code.shape.q;
    match q {
        3 => stack_by::<3>(word),
        5 => stack_by::<5>(word),
        7 => stack_by::<7>(word),
        11 => stack_by::<11>(word),
        13 => stack_by::<13>(word),
        17 => stack_by::<17>(word),
        19 => stack_by::<19>(word),
        23 => stack_by::<23>(word),
        29 => stack_by::<29>(word),
        _ => stack_by::<31>(word),
    }
}

// By the values of all checks.
fn copy_checks(code: Code, word: &mut [u32])
    requires { length word.old ≡ word_length code.shape }
    ensures { Raised code.shape word.old word.new }
{
    let q = code.shape.q as usize;
    let m = code.shape.n as usize - 1;
    let mut syn = [0u32; 248];
    syndrome::fill(code.shape, word, &mut syn);
    gtb::copy_run(word, &syn, 0, q, m * q);
}

// A flat shape has one upper row, which is the sum of the columns.
pub fn raise(code: Code, word: &mut [u32])
    requires { length word.old ≡ word_length code.shape }
    ensures { Raised code.shape word.old word.new }
{
    if is_flat(code.shape) {
        stack(code, word);
        return;
    }
    copy_checks(code, word);
}
