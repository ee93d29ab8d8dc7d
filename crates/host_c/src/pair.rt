// The pair over bytes: word reading and page reading at the standard slopes.
ghost use Rattle.std.specs.Prelude.{◌≡◌};
ghost use Rattle.gtb.specs.Shape.{standard};
ghost use Rattle.page.specs.Page.{read_number};
ghost use Rattle.host.specs.Exported.{page_in, ReadingWord};

use host::pair;

// Word reading: digits changed, or 2^31 plus the number of the refusal.
#[unsafe(no_mangle)]
pub extern "C" fn shaftglimmer_read_word(q: u32, n: u32, b: u32, word: &mut [u8]) -> u32
    ensures { ReadingWord (standard q n b) word.old word.new result }
{
    pair::shaftglimmer_read_word(q, n, b, word)
}

// Page reading: 1024 × page number + number of marks, or 2^31 plus the number of the refusal.
#[unsafe(no_mangle)]
pub extern "C" fn shaftglimmer_read_page(q: u32, n: u32, b: u32, symbols: &[u8]) -> u32
    ensures { result ≡ read_number (page_in (standard q n b) symbols.now) }
{
    pair::shaftglimmer_read_page(q, n, b, symbols)
}
