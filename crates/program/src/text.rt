// A short text that is put together piece by piece.
ghost use Rattle.std.specs.Prelude.{◌≡◌, cond, [], ◌++◌, ◌+◌, ◌≤◌, length};
ghost use Rattle.lines.specs.Text.{decimal};
ghost use Rattle.program.specs.Shown.{numbered};

use std::marker::Model;

// The first `size` bytes. Those behind are zeros, so that the text alone says which bytes there are.
#[derive(Clone, Copy)]
pub struct Text {
    bytes: [u8; 400],
    size: usize,
}

impl Model for Text {
    ghost use Rattle.std.specs.Prelude.{List, ◌++◌, ℕ, ◌-◌, length, take, replicate};
    ghost use Rattle.program.specs.Filled.{Filled, given_size, given_bytes};

    ghost Value = { List ℕ };

    ghost view = { λ t. take t.size t.bytes };

    ghost invariant = { λ t. Filled t.size t.bytes };

    ghost inverse = { λ text. record { bytes = text ++ replicate (400 - length text) 0; size = length text } };

    ghost inverse_ok = { λ t h i. record { bytes = given_bytes h i; size = given_size h i } };
}

impl Text {
    pub fn new() -> Text
        ensures { result ≡ [] }
    {
        Text {
            bytes: [0; 400],
            size: 0,
        }
    }

    pub fn as_slice(&self) -> &[u8]
        ensures { result.now ≡ self.now }
    {
        &self.bytes[..self.size]
    }

    pub fn put(&mut self, words: &[u8])
        requires { length self.old + length words.now ≤ 400 }
        ensures { self.new ≡ self.old ++ words.now }
    {
        self.size = lines::put_text(&mut self.bytes, self.size, words);
    }

    // Where they are wanted.
    pub fn put_if(&mut self, wanted: bool, words: &[u8])
        requires { length self.old + length words.now ≤ 400 }
        ensures { (self.new ≡ self.old ++ cond wanted words.now []) × (length self.new ≤ length self.old + length words.now) }
    {
        if wanted {
            self.put(words);
        }
    }

    pub fn put_number(&mut self, value: u32)
        requires { length self.old + 10 ≤ 400 }
        ensures { (self.new ≡ self.old ++ decimal value) × (length self.new ≤ length self.old + 10) }
    {
        self.size = lines::put_number(&mut self.bytes, self.size, value);
    }

    // A number and what it counts.
    pub fn put_numbered(&mut self, value: u32, words: &[u8])
        requires { length self.old + 10 + length words.now ≤ 400 }
        ensures { (self.new ≡ self.old ++ numbered value words.now) × (length self.new ≤ length self.old + 10 + length words.now) }
    {
        self.put_number(value);
        self.put(words);
    }
}
