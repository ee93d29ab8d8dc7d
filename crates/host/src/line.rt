// A line of a capture, read for programs in other languages.
ghost use Rattle.std.specs.Prelude.{◌≡◌, ◌++◌, length, take, drop};
ghost use Rattle.host.specs.Line.{LineCrossing};

use gtb::Refusal;

// The longest line of a capture, without its newline.
const LONGEST: usize = 16383;

// Puts the values that were stored at the front of the list: `count` of them, or all if there are more.
fn keep(stored: &[u32], count: usize, values: &mut [u32])
    requires { (length stored.now ≡ 1024) × (length values.old ≡ 1024) }
    ensures { values.new ≡ take count stored.now ++ drop count values.old }
{
    let kept = count.min(1024);
    values[..kept].copy_from_slice(&stored[..kept]);
}

// The number of values in a line, which comes without its newline; up to 1024 of them are stored.
pub fn shaftglimmer_parse_line(line: &[u8], values: &mut [u32; 1024]) -> u32
    ensures { LineCrossing line.now values.old values.new result }
{
    if line.len() > LONGEST {
        return gtb::number::refused(Refusal::Syntax);
    }
    let mut stored = [0u32; 1024]; // a refused line leaves the values as lent
    let Some(count) = lines::parse(line, &mut stored) else {
        return gtb::number::refused(Refusal::Syntax);
    };
    keep(&stored, count, values);
    count as u32
}
