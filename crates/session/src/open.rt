// The first step of an arrival, without the session: what a word brings.
ghost use Rattle.std.specs.Prelude.{◌≡◌, length};
ghost use Rattle.gtb.specs.Shape.{info_length};
ghost use Rattle.session.specs.Arrival.{way_of};
ghost use Rattle.session.specs.Named.{number_of};
ghost use Rattle.session.specs.Steps.{Openable, Opens, Keeps};

use crate::way::Way;
use crate::{Brought, Unopened};
use gtb::{Refusal, Shape};
use page::read_narrow;

// A word past tests 1, 18, 16 and 2, read the way that is named. Where it brings a page, the marks are the symbols from place 2 on.
pub fn open(
    shape: Shape,
    way: Way,
    word: &mut [u32],
    symbols: &mut [u32],
) -> Result<Brought, Unopened>
    requires { Openable shape (number_of way) word.old × (length symbols.old ≡ info_length shape) }
    ensures { Opens (way_of (number_of way)) shape word.old word.new symbols.new result }
{
    let corrected = match way.read(shape, word) {
        Ok(corrected) => corrected,
        Err(refusal) => {
            return Err(Unopened {
                refusal,
                restored: false,
            });
        }
    };
    gtb::gather(shape, word, symbols);
    match read_narrow(shape, symbols) {
        Ok((number, count)) => Ok(Brought {
            number,
            count,
            corrected,
        }),
        Err(refusal) => Err(Unopened {
            refusal,
            restored: true,
        }),
    }
}

// The same for a word that is to stay as it came where it brings no page: what came is kept beside it, and put back.
pub fn open_kept(
    shape: Shape,
    way: Way,
    word: &mut [u32],
    came: &mut [u32],
    symbols: &mut [u32],
) -> Result<Brought, Refusal>
    requires { Openable shape (number_of way) word.old × (length came.old ≡ length word.old) × (length symbols.old ≡ info_length shape) }
    ensures { Keeps (way_of (number_of way)) shape word.old word.new came.new symbols.new result }
{
    gtb::copy(word, came);
    match open(shape, way, word, symbols) {
        Ok(page) => Ok(page),
        Err(unopened) => {
            if unopened.restored {
                gtb::copy(came, word);
            }
            Err(unopened.refusal)
        }
    }
}
