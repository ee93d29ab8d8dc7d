// The page in the information symbols of a word: page number, number of marks, marks, zeros.
#![tactic(auto)]

pub mod number;

ghost use Rattle.std.specs.Prelude.{true, List, ◌∷◌, ◌≡◌, ◌++◌, ℕ, ◌+◌, ◌-◌, ◌≤◌, length, replicate};
ghost use Rattle.paper.specs.Page.{PageReading, Marks, PageWriting};
ghost use Rattle.gtb.specs.Answer.{status_number};
ghost use Rattle.gtb.specs.Shape.{of, info_length};
ghost use Rattle.gtb.specs.Square.{narrow};
ghost use Rattle.page.specs.Page.{functions, zeros, read_number, page_of, MarksPart, write_status, Writing};
ghost use Rattle.page.specs.Steps.{Sized};

use gtb::code::Code;
use gtb::{Refusal, Shape};

// Every mark is a function number.
#[tactic(auto, using(crate::proofs::Entries::narrow_functions))]
fn are_functions(marks: &[u32]) -> bool
    ensures { result ≡ functions marks.now }
{
    gtb::is_narrow(marks, 8)
}

// Only the number 0 has no bit.
#[tactic(auto, using(crate::proofs::Entries::narrow_zeros))]
fn are_zeros(symbols: &[u32]) -> bool
    ensures { result ≡ zeros symbols.now }
{
    gtb::is_narrow(symbols, 0)
}

// The page reader's tests 5 to 8, past the others.
pub fn read_narrow(shape: Shape, symbols: &[u32]) -> Result<(u32, u32), Refusal>
    requires { (Sized shape symbols.now) × (narrow shape.b symbols.now ≡ true) }
    ensures { result ≡ page_of shape symbols.now }
{
    let number = symbols[0];
    let count = symbols[1];
    let c = count as usize;
    if 1024 <= number {
        return Err(Refusal::Page);
    }
    if symbols.len() - 2 < c {
        return Err(Refusal::Count);
    }
    let end = 2 + c;
    if !are_functions(&symbols[2..end]) {
        return Err(Refusal::Function);
    }
    if !are_zeros(&symbols[end..]) {
        return Err(Refusal::Tail);
    }
    Ok((number, count))
}

// Page number and number of marks.
pub fn read_page(shape: Shape, symbols: &[u32]) -> Result<(u32, u32), Refusal>
    ensures read { result ≡ page_of shape symbols.now }
    ensures paper { PageReading (of shape) symbols.now (read_number result) }
{
    let code = Code::of(shape)?;
    if symbols.len() != code.info_length() {
        return Err(Refusal::Length);
    }
    if !gtb::is_narrow(symbols, code.shape.b) {
        return Err(Refusal::Width);
    }
    read_narrow(code.shape, symbols)
}

// The marks, as a part of the symbols; empty where the page reader refuses.
pub fn marks(shape: Shape, symbols: &[u32]) -> &[u32]
    ensures part { MarksPart shape symbols.entry result }
    ensures paper { Marks (of shape) symbols.now result.now }
{
    match read_page(shape, symbols) {
        Ok((_, count)) => {
            let end = 2 + count as usize;
            &symbols[2..end]
        }
        Err(_) => &symbols[..0],
    }
}

// Page number, number of marks and marks are below 2^b.
fn is_narrow_page(b: u32, number: u32, marks: &[u32]) -> bool
    requires { b ≤ 32 }
    ensures { result ≡ narrow b (number ∷ length marks.now ∷ marks.now) }
{
    let bound = 1u64 << b;
    (number as u64) < bound && (marks.len() as u64) < bound && gtb::is_narrow(marks, b)
}

// The page writer's tests 5, 6, 7, 3.
fn status(code: Code, number: u32, marks: &[u32]) -> Result<(), Refusal>
    ensures { (symbols : List ℕ) → length symbols ≡ info_length code.shape → result ≡ write_status code.shape number marks.now symbols }
{
    if 1024 <= number {
        return Err(Refusal::Page);
    }
    if code.info_length() - 2 < marks.len() {
        return Err(Refusal::Count);
    }
    if !are_functions(marks) {
        return Err(Refusal::Function);
    }
    if !is_narrow_page(code.shape.b, number, marks) {
        return Err(Refusal::Width);
    }
    Ok(())
}

// Writes a page.
fn fill(number: u32, marks: &[u32], symbols: &mut [u32])
    requires { (2 + length marks.now ≤ length symbols.old) × (length symbols.old ≤ 900) }
    ensures { symbols.new ≡ number ∷ length marks.now ∷ (marks.now ++ replicate (length symbols.old - 2 - length marks.now) 0) }
{
    let c = marks.len();
    symbols[0] = number;
    symbols[1] = c as u32;
    gtb::copy(marks, &mut symbols[2..2 + c]);
    let rest = 2 + c;
    symbols[rest..].fill(0);
}

// Fills the lent symbols with the page, or refuses and leaves them.
pub fn write_page(
    shape: Shape,
    number: u32,
    marks: &[u32],
    symbols: &mut [u32],
) -> Result<(), Refusal>
    ensures written { Writing shape number marks.now symbols.old symbols.new result }
    ensures paper { PageWriting (of shape) number marks.now symbols.old symbols.new (status_number result) }
{
    let code = Code::of(shape)?;
    if symbols.len() != code.info_length() {
        return Err(Refusal::Length);
    }
    status(code, number, marks)?;
    fill(number, marks, symbols);
    Ok(())
}
