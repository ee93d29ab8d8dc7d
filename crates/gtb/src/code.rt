// A shape that tests 1 and 18 let pass, and what it asks of what is lent.
ghost use Rattle.std.specs.Prelude.{◌≡◌, false, MatchResult, length};
ghost use Rattle.gtb.specs.Shape.{lawful, shape_refusal, Lawful, word_length, info_length, kept_checks, scratch_length};
ghost use Rattle.gtb.specs.Positions.{extract_of};
ghost use Rattle.gtb.specs.Lent.{word_status};

use crate::{Refusal, Shape, copy_run, is_narrow, is_regular, is_sloped};

#[derive(Clone, Copy)]
pub struct Code {
    pub shape: Shape,
    ghost lawful: { Lawful shape },
}

impl Code {
    // Tests 1 and 18.
    #[tactic(auto, unfolding(crate::specs::Shape::lawful, crate::specs::Shape::shape_refusal))]
    pub fn of(shape: Shape) -> Result<Code, Refusal>
        ensures { MatchResult result (λ code. code.shape ≡ shape) (λ e. (lawful shape ≡ false) × (e ≡ shape_refusal shape)) }
    {
        if !is_regular(shape) {
            return Err(Refusal::Shape);
        }
        if !is_sloped(shape) {
            return Err(Refusal::Slope);
        }
        Ok(Code { shape })
    }

    // N, the symbols of a word.
    pub fn word_length(self) -> usize
        ensures { result ≡ word_length self.shape }
    {
        let q = self.shape.q as usize;
        q * q
    }

    // K, its information symbols.
    pub fn info_length(self) -> usize
        ensures { result ≡ info_length self.shape }
    {
        let q = self.shape.q as usize;
        let n = self.shape.n as usize;
        (q - 1) * (q + 1 - n)
    }

    // The checks that no others imply.
    #[tactic(auto, unfolding(crate::specs::Shape::kept_checks))]
    pub fn kept_checks(self) -> usize
        ensures { result ≡ kept_checks self.shape }
    {
        let q = self.shape.q as usize;
        let n = self.shape.n as usize;
        n * q - n + 1
    }

    #[tactic(auto, using(crate::proofs::Sizes::sizes), unfolding(crate::specs::Shape::scratch_length))]
    pub fn scratch_length(self) -> usize
        ensures { result ≡ scratch_length self.shape }
    {
        let q = self.shape.q as usize;
        self.kept_checks() * ((q * q + 31) / 32)
    }

    // Tests 2 and 3 on a lent word.
    #[tactic(auto, unfolding(crate::specs::Lent::word_status))]
    pub fn test_word(self, word: &[u32]) -> Result<(), Refusal>
        ensures { result ≡ word_status self.shape word.now }
    {
        if word.len() != self.word_length() {
            return Err(Refusal::Length);
        }
        if !is_narrow(word, self.shape.b) {
            return Err(Refusal::Width);
        }
        Ok(())
    }

    // Copies the symbols on the information positions, row by row.
    pub fn gather(self, word: &[u32], symbols: &mut [u32])
        requires { (length word.now ≡ word_length self.shape) × (length symbols.old ≡ info_length self.shape) }
        ensures { symbols.new ≡ extract_of self.shape word.now }
    {
        let q = self.shape.q as usize;
        let m = self.shape.n as usize - 1;
        let rows = q - m;
        let p = q - 1;
        for i in 0..rows {
            copy_run(symbols, word, i * p, (m + i) * q + 1, p);
        }
    }
}
