// The lengths of a shape, 0 where it is refused by 1 or 18.
ghost use Rattle.paper.specs.Square.{N};
ghost use Rattle.paper.specs.Writing.{K, scratch_length};
ghost use Rattle.paper.specs.Boundary.{shape_in, LengthOf};

use host::lengths;

#[unsafe(no_mangle)]
pub extern "C" fn shaftglimmer_word_length(shape: &[u32; 10]) -> u32
    ensures { LengthOf N (shape_in shape.now) result }
{
    lengths::shaftglimmer_word_length(shape)
}

#[unsafe(no_mangle)]
pub extern "C" fn shaftglimmer_data_length(shape: &[u32; 10]) -> u32
    ensures { LengthOf K (shape_in shape.now) result }
{
    lengths::shaftglimmer_data_length(shape)
}

#[unsafe(no_mangle)]
pub extern "C" fn shaftglimmer_scratch_length(shape: &[u32; 10]) -> u32
    ensures { LengthOf scratch_length (shape_in shape.now) result }
{
    lengths::shaftglimmer_scratch_length(shape)
}
