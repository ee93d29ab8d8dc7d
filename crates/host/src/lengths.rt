// The lengths of a shape, 0 where it is refused by 1 or 18.
ghost use Rattle.paper.specs.Square.{N};
ghost use Rattle.paper.specs.Writing.{K, scratch_length};
ghost use Rattle.paper.specs.Boundary.{shape_in, LengthOf};

use crate::crossing::load_shape;
use gtb::size::{info_length, scratch_length, word_length};

#[derive(Clone, Copy)]
struct Sizes {
    word: u32,
    info: u32,
    scratch: u32,
}

fn sizes_in(values: &[u32; 10]) -> Sizes
    ensures { LengthOf N (shape_in values.now) result.word × LengthOf K (shape_in values.now) result.info × LengthOf scratch_length (shape_in values.now) result.scratch }
{
    let shape = load_shape(values);
    if !gtb::is_lawful(shape) {
        return Sizes {
            word: 0,
            info: 0,
            scratch: 0,
        };
    }
    Sizes {
        word: word_length(shape) as u32,
        info: info_length(shape) as u32,
        scratch: scratch_length(shape) as u32,
    }
}

pub fn shaftglimmer_word_length(shape: &[u32; 10]) -> u32
    ensures { LengthOf N (shape_in shape.now) result }
{
    sizes_in(shape).word
}

pub fn shaftglimmer_data_length(shape: &[u32; 10]) -> u32
    ensures { LengthOf K (shape_in shape.now) result }
{
    sizes_in(shape).info
}

pub fn shaftglimmer_scratch_length(shape: &[u32; 10]) -> u32
    ensures { LengthOf scratch_length (shape_in shape.now) result }
{
    sizes_in(shape).scratch
}
