// The syndromes with the order as a literal: the compiler then knows how long a run is, and has no remainder of one to care for. It is
// proved once, over the order.
ghost use Rattle.std.specs.Prelude.{◌≡◌, ◌+◌, ◌*◌, length, replicate};
ghost use Rattle.gtb.specs.Shape.{Lawful, word_length};
ghost use Rattle.gtb.specs.Square.{Syndromes};

use crate::doubled::{first_direction, other_directions};
use gtb::Shape;

// `ROOM` is how many symbols the rows of an order Q take, each laid down twice.
pub fn fill_with<const Q: usize, const ROOM: usize>(
    shape: Shape,
    word: &[u32],
    syn: &mut [u32; 248],
)
    requires { (Lawful shape) × (length word.now ≡ word_length shape) × (syn.old ≡ replicate 248 0) × (shape.q ≡ Q) × (ROOM ≡ Q * (Q + Q)) }
    ensures { Syndromes shape word.now syn.new }
{
    let mut twice = [0u32; ROOM];
    first_direction(shape, word, syn, Q);
    other_directions(shape, word, syn, &mut twice, Q);
}
