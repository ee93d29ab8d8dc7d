// Words over u32: writing, extraction, the ways of reading, filling in, restoring, checking.
ghost use Rattle.paper.specs.Paper as paper;
ghost use Rattle.paper.specs.Boundary.{shape_in};

use crate::crossing::load_shape;

pub fn shaftglimmer_encode(
    shape: &[u32; 10],
    data: &[u32],
    word: &mut [u32],
    scratch: &mut [u32],
) -> u32
    ensures { paper.Writing (shape_in shape.now) «data».now scratch.old word.old scratch.new word.new result }
{
    gtb::number::status(encoder::encode(load_shape(shape), data, scratch, word))
}

pub fn shaftglimmer_extract(
    shape: &[u32; 10],
    word: &[u32],
    data: &mut [u32],
    scratch: &mut [u32],
) -> u32
    ensures { paper.Extraction (shape_in shape.now) word.now scratch.old «data».old scratch.new «data».new result }
{
    gtb::number::status(encoder::extract(load_shape(shape), word, scratch, data))
}

pub fn shaftglimmer_decode(shape: &[u32; 10], word: &mut [u32]) -> u32
    ensures { paper.Reading (shape_in shape.now) 0 word.old word.new result }
{
    gtb::number::answer(decoder::decode(load_shape(shape), word))
}

pub fn shaftglimmer_decode_majority(shape: &[u32; 10], word: &mut [u32]) -> u32
    ensures { paper.Reading (shape_in shape.now) 1 word.old word.new result }
{
    gtb::number::answer(majority::decode_majority(load_shape(shape), word))
}

pub fn shaftglimmer_decode_two(shape: &[u32; 10], word: &mut [u32]) -> u32
    ensures { paper.Reading (shape_in shape.now) 2 word.old word.new result }
{
    gtb::number::answer(double::decode_two(load_shape(shape), word))
}

pub fn shaftglimmer_decode_nearest(shape: &[u32; 10], word: &mut [u32]) -> u32
    ensures { paper.Nearest (shape_in shape.now) word.old word.new result }
{
    gtb::number::answer(nearest::decode_nearest(load_shape(shape), word))
}

pub fn shaftglimmer_fill(
    shape: &[u32; 10],
    places: &[u32],
    word: &mut [u32],
    scratch: &mut [u32],
) -> u32
    ensures { paper.Filling (shape_in shape.now) word.old places.now scratch.old word.new scratch.new result }
{
    gtb::number::answer(erasure::fill(load_shape(shape), word, places, scratch))
}

pub fn shaftglimmer_restore(
    shape: &[u32; 10],
    places: &[u32],
    word: &mut [u32],
    scratch: &mut [u32],
) -> u32
    ensures { paper.Restoring (shape_in shape.now) word.old places.now scratch.old word.new scratch.new result }
{
    gtb::number::answer(restore::restore(load_shape(shape), word, places, scratch))
}

// A proposal checked; both words are only read.
pub fn shaftglimmer_check(shape: &[u32; 10], received: &[u32], proposed: &[u32]) -> u32
    ensures { paper.Checking (shape_in shape.now) received.now proposed.now result }
{
    verify::number::verdict(verify::check(load_shape(shape), received, proposed))
}

// How many checks of each symbol decoding looks at.
pub fn shaftglimmer_looked(shape: &[u32; 10], word: &[u32], looked: &mut [u32]) -> u32
    ensures { paper.Looking (shape_in shape.now) word.now looked.old looked.new result }
{
    gtb::number::status(decoder::looked(load_shape(shape), word, looked))
}
