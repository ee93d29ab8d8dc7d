// The pair over bytes: word reading and page reading at the standard slopes.
ghost use Rattle.std.specs.Prelude.{◌≡◌, ◌+◌, ◌*◌, ◌≤◌, length};
ghost use Rattle.gtb.specs.Shape.{Lawful, word_length, standard};
ghost use Rattle.page.specs.Page.{read_number};
ghost use Rattle.host.specs.Bytes.{symbols_of, bytes_of, symbol_at, with_symbol};
ghost use Rattle.host.specs.Exported.{page_in, ReadingWord};

use gtb::size::{info_length, word_length};
use gtb::{Refusal, Shape};

// The symbols of orders up to 11: an array of the largest word is longer to clear than they are to read.
const FEW: usize = 121;

// The symbol in the four bytes from `at` on.
fn symbol_at(bytes: &[u8], at: usize) -> u32
    requires { at + 4 ≤ length bytes.now }
    ensures { result ≡ symbol_at bytes.now at }
{
    u32::from_le_bytes([bytes[at], bytes[at + 1], bytes[at + 2], bytes[at + 3]])
}

// Puts four bytes together to each symbol.
fn load(bytes: &[u8], symbols: &mut [u32])
    requires { length bytes.now ≡ 4 * length symbols.old }
    ensures { symbols.new ≡ symbols_of bytes.now }
{
    for i in 0..symbols.len() {
        symbols[i] = symbol_at(bytes, 4 * i);
    }
}

// Puts a symbol into the four bytes from `at` on.
fn put_symbol(bytes: &mut [u8], at: usize, symbol: u32)
    requires { at + 4 ≤ length bytes.old }
    ensures { bytes.new ≡ with_symbol bytes.old at symbol }
{
    bytes[at..at + 4].copy_from_slice(&symbol.to_le_bytes());
}

// Takes each symbol apart into four bytes.
fn store(symbols: &[u32], bytes: &mut [u8])
    requires { length bytes.old ≡ 4 * length symbols.now }
    ensures { bytes.new ≡ bytes_of symbols.now }
{
    for (i, symbol) in symbols.iter().enumerate() {
        put_symbol(bytes, 4 * i, *symbol);
    }
}

// Word reading past the tests on shape and length; bytes are written only where the word is accepted.
fn read_word(shape: Shape, bytes: &mut [u8], symbols: &mut [u32]) -> u32
    requires { (Lawful shape) × (length bytes.old ≡ 4 * word_length shape) × (length symbols.old ≡ word_length shape) }
    ensures { ReadingWord shape bytes.old bytes.new result }
{
    load(bytes, symbols);
    let answer = decoder::decode(shape, symbols);
    if let Ok(_) = answer {
        store(symbols, bytes);
    }
    gtb::number::answer(answer)
}

// Word reading: digits changed, or 2^31 plus the number of the refusal.
pub fn shaftglimmer_read_word(q: u32, n: u32, b: u32, word: &mut [u8]) -> u32
    ensures { ReadingWord (standard q n b) word.old word.new result }
{
    let shape = Shape {
        q,
        n,
        b,
        slopes: gtb::STANDARD,
    };
    if !gtb::is_lawful(shape) {
        return gtb::number::refused(gtb::shape_refusal(shape));
    }
    let size = word_length(shape);
    if word.len() != 4 * size {
        return gtb::number::refused(Refusal::Length);
    }
    if size <= FEW {
        let mut few = [0u32; FEW];
        return read_word(shape, word, &mut few[..size]);
    }
    let mut symbols = [0u32; 961];
    read_word(shape, word, &mut symbols[..size])
}

// Page reading: 1024 × page number + number of marks, or 2^31 plus the number of the refusal.
pub fn shaftglimmer_read_page(q: u32, n: u32, b: u32, symbols: &[u8]) -> u32
    ensures { result ≡ read_number (page_in (standard q n b) symbols.now) }
{
    let shape = Shape {
        q,
        n,
        b,
        slopes: gtb::STANDARD,
    };
    if !gtb::is_lawful(shape) {
        return gtb::number::refused(gtb::shape_refusal(shape));
    }
    let size = info_length(shape);
    if symbols.len() != 4 * size {
        return gtb::number::refused(Refusal::Length);
    }
    let mut loaded = [0u32; 900];
    let part = &mut loaded[..size];
    load(symbols, part);
    page::number::read(page::read_page(shape, part))
}
