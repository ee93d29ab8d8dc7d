// The ways of reading that an arrival may name.
ghost use Rattle.std.specs.Prelude.{◌≡◌};
ghost use Rattle.session.specs.Arrival.{way_of};
ghost use Rattle.session.specs.Named.{number_of, Admits};
ghost use Rattle.session.specs.Steps.{way_test, Reading};

use crate::Session;
use gtb::{Refusal, Shape};

impl Session {
    // Numbers of ways of reading are below this.
    pub const WAYS: u32 = 3;

    // The way that undoes clean damage to at most n - 1 symbols.
    pub const CLEAN: u32 = 0;

    // The way that undoes any damage to at most n / 2 symbols.
    pub const VOTE: u32 = 1;

    // The way that undoes any damage to at most two symbols, with three directions or more.
    pub const TWO: u32 = 2;
}

// There is no way past the last one.
const _: () = prove!(Session::WAYS == Session::TWO + 1);

// A way that an arrival names, past test 1.
#[derive(Clone, Copy)]
pub enum Way {
    Clean,
    Vote,
    Two,
}

impl TryFrom<u32> for Way {
    type Error = Refusal;

    ghost try_from_gives = { λ k r. Admits (way_test k) k r };

    fn try_from(way: u32) -> Result<Way, Refusal> {
        match way {
            Session::CLEAN => Ok(Way::Clean),
            Session::VOTE => Ok(Way::Vote),
            Session::TWO => Ok(Way::Two),
            _ => Err(Refusal::Shape),
        }
    }
}

impl Way {
    // Test 16: the way can be used with the shape.
    pub fn suits(self, shape: Shape) -> bool
        ensures { result ≡ (way_of (number_of self)).suits shape }
    {
        match self {
            Way::Clean => true,
            Way::Vote => true,
            Way::Two => shape.n >= 3,
        }
    }

    // A word read this way: here the ways meet.
    pub fn read(self, shape: Shape, word: &mut [u32]) -> Result<u32, Refusal>
        ensures { Reading (way_of (number_of self)) shape word.old word.new result }
    {
        match self {
            Way::Clean => decoder::decode(shape, word),
            Way::Vote => majority::decode_majority(shape, word),
            Way::Two => double::decode_two(shape, word),
        }
    }
}
