// Pages over u32: reading, marks, writing.
ghost use Rattle.paper.specs.Paper as paper;
ghost use Rattle.paper.specs.Boundary.{shape_in, MarksCopied};

use crate::crossing::load_shape;
use gtb::Refusal;

// Page number and number of marks.
pub fn shaftglimmer_parse_page(shape: &[u32; 10], data: &[u32]) -> u32
    ensures { paper.PageReading (shape_in shape.now) «data».now result }
{
    page::number::read(page::read_page(load_shape(shape), data))
}

// The marks, copied to the front of a list as long as the symbols, and how many they are.
pub fn shaftglimmer_marks(shape: &[u32; 10], data: &[u32], marks: &mut [u32]) -> u32
    ensures { MarksCopied (shape_in shape.now) «data».now marks.old marks.new result }
{
    if marks.len() != data.len() {
        return gtb::number::refused(Refusal::Length);
    }
    let part = page::marks(load_shape(shape), data);
    gtb::copy(part, marks);
    part.len() as u32
}

pub fn shaftglimmer_write_page(shape: &[u32; 10], page: u32, marks: &[u32], data: &mut [u32]) -> u32
    ensures { paper.PageWriting (shape_in shape.now) page marks.now «data».old «data».new result }
{
    gtb::number::status(page::write_page(load_shape(shape), page, marks, data))
}
