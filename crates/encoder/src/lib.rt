// Writing and data extraction.
#![tactic(auto)]

mod checks;
mod interpolation;
mod runs;

ghost use Rattle.std.specs.Prelude.{◌≡◌, true, ◌&&◌, eqb, length};
ghost use Rattle.paper.specs.Writing as paper;
ghost use Rattle.gtb.specs.Answer.{status_number};
ghost use Rattle.gtb.specs.Shape.{of, word_length, info_length, scratch_length};
ghost use Rattle.gtb.specs.Square.{narrow};
ghost use Rattle.gtb.specs.Positions.{Encodes};
ghost use Rattle.encoder.specs.Contract.{Encoding, Extraction};
ghost use Rattle.encoder.specs.Steps.{Tested, Placed};

use gtb::code::Code;
use gtb::{Refusal, Shape};

// The lengths of the lent slices are those that the shape asks for.
fn sizes_match(code: Code, symbols: usize, scratch: usize, word: usize) -> bool
    ensures { result ≡ (eqb symbols (info_length code.shape) && eqb scratch (scratch_length code.shape) && eqb word (word_length code.shape)) }
{
    symbols == code.info_length() && scratch == code.scratch_length() && word == code.word_length()
}

// The tests of both entries past 1 and 18, the last one on the symbols that come in. Past test 2 the scratch is cleared.
fn test(
    code: Code,
    symbols: &[u32],
    scratch: &mut [u32],
    word: &[u32],
    given: &[u32],
) -> Result<(), Refusal>
    ensures { Tested code.shape symbols.now scratch.old word.now given.now scratch.new result }
{
    if !sizes_match(code, symbols.len(), scratch.len(), word.len()) {
        return Err(Refusal::Length);
    }
    scratch.fill(0);
    if !gtb::is_narrow(given, code.shape.b) {
        return Err(Refusal::Width);
    }
    Ok(())
}

// Puts the symbols down, each lower row with the XOR of its symbols in front, and zeros above.
fn place(code: Code, symbols: &[u32], word: &mut [u32])
    requires { (length word.old ≡ word_length code.shape) × (length symbols.now ≡ info_length code.shape) }
    ensures { Placed code.shape symbols.now word.new }
{
    let q = code.shape.q as usize;
    let m = code.shape.n as usize - 1;
    runs::clear_run(word, m * q);
    let rows = q - m;
    let p = q - 1;
    for i in 0..rows {
        runs::place_row(word, symbols, (m + i) * q, i * p, p);
    }
}

// The codeword of the symbols: the upper rows are interpolated from what the directions show of the lower ones.
fn write(code: Code, symbols: &[u32], word: &mut [u32])
    requires { (length word.old ≡ word_length code.shape) × (length symbols.now ≡ info_length code.shape) × (narrow code.shape.b symbols.now ≡ true) }
    ensures { Encodes code.shape symbols.now word.new }
{
    place(code, symbols, word);
    checks::raise(code, word);
    interpolation::interpolate(code, word, 0);
}

// Writing: the codeword with these information symbols. The scratch is only cleared.
pub fn encode(
    shape: Shape,
    symbols: &[u32],
    scratch: &mut [u32],
    word: &mut [u32],
) -> Result<(), Refusal>
    ensures written { Encoding shape symbols.now scratch.old word.old scratch.new word.new result }
    ensures paper { paper.Writing (of shape) symbols.now scratch.old word.old scratch.new word.new (status_number result) }
{
    let code = Code::of(shape)?;
    test(code, symbols, scratch, word, symbols)?;
    write(code, symbols, word);
    Ok(())
}

// Data extraction, of any word. The scratch is only cleared.
pub fn extract(
    shape: Shape,
    word: &[u32],
    scratch: &mut [u32],
    symbols: &mut [u32],
) -> Result<(), Refusal>
    ensures extracted { Extraction shape word.now scratch.old symbols.old scratch.new symbols.new result }
    ensures paper { paper.Extraction (of shape) word.now scratch.old symbols.old scratch.new symbols.new (status_number result) }
{
    let code = Code::of(shape)?;
    test(code, symbols, scratch, word, word)?;
    code.gather(word, symbols);
    Ok(())
}
