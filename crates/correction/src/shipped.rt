// The shape that nearly all probes ship with: order 17, four directions, slopes 0, 1, 2, whatever the width and the slopes past the third.
// The check numbers of its 289 positions come from a table; those of every other shape are computed.
ghost use Rattle.std.specs.Prelude.{◌≡◌};
ghost use Rattle.correction.specs.Shipped.{is_shipped};

use gtb::Shape;

// The shape is the shipped one.
pub fn is_shipped(shape: Shape) -> bool
    ensures { result ≡ is_shipped shape }
{
    if shape.q != 17 {
        return false;
    }
    if shape.n != 4 {
        return false;
    }
    let slopes = shape.slopes;
    if slopes[0] != 0 {
        return false;
    }
    if slopes[1] != 1 {
        return false;
    }
    slopes[2] == 2
}
