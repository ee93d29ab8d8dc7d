// A line of a capture, read for programs in other languages.
ghost use Rattle.host.specs.Line.{LineCrossing};

use host::line;

// The number of values in a line, which comes without its newline; up to 1024 of them are stored.
#[unsafe(no_mangle)]
pub extern "C" fn shaftglimmer_parse_line(line: &[u8], values: &mut [u32; 1024]) -> u32
    ensures { LineCrossing line.now values.old values.new result }
{
    line::shaftglimmer_parse_line(line, values)
}
