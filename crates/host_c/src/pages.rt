// Pages over u32: reading, marks, writing.
ghost use Rattle.paper.specs.Paper as paper;
ghost use Rattle.paper.specs.Boundary.{shape_in, MarksCopied};

use host::pages;

// Page number and number of marks.
#[unsafe(no_mangle)]
pub extern "C" fn shaftglimmer_parse_page(shape: &[u32; 10], data: &[u32]) -> u32
    ensures { paper.PageReading (shape_in shape.now) «data».now result }
{
    pages::shaftglimmer_parse_page(shape, data)
}

// The marks, copied to the front of a list as long as the symbols, and how many they are.
#[unsafe(no_mangle)]
pub extern "C" fn shaftglimmer_marks(shape: &[u32; 10], data: &[u32], marks: &mut [u32]) -> u32
    ensures { MarksCopied (shape_in shape.now) «data».now marks.old marks.new result }
{
    pages::shaftglimmer_marks(shape, data, marks)
}

#[unsafe(no_mangle)]
pub extern "C" fn shaftglimmer_write_page(
    shape: &[u32; 10],
    page: u32,
    marks: &[u32],
    data: &mut [u32],
) -> u32
    ensures { paper.PageWriting (shape_in shape.now) page marks.now «data».old «data».new result }
{
    pages::shaftglimmer_write_page(shape, page, marks, data)
}
