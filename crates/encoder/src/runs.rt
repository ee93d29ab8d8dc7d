// Runs of symbols: one placed as a row, one cleared, one taken in by another.
ghost use Rattle.std.specs.Prelude.{◌+◌, ◌≤◌, length};
ghost use Rattle.parity.specs.Xor.{◌⊕◌};
ghost use Rattle.gtb.specs.Square.{at};
ghost use Rattle.gtb.specs.Rows.{lower_row};
ghost use Rattle.parity.specs.Lists.{Written};

// A lower row of the word, at place `a`: `count` symbols from place `start` on, and their XOR before them.
// Kept as one loop: rows are short, and copied first and summed then they take longer.
pub fn place_row(word: &mut [u32], symbols: &[u32], a: usize, start: usize, count: usize)
    requires { (a + 1 + count ≤ length word.old) × (start + count ≤ length symbols.now) }
    ensures { Written a (count + 1) (lower_row count (λ i. at symbols.now (start + i))) word.old word.new }
{
    let mut sum: u32 = 0;
    for i in 0..count {
        let symbol = symbols[start + i];
        word[a + 1 + i] = symbol;
        sum ^= symbol;
    }
    word[a] = sum;
}

// The first `count` places become 0.
pub fn clear_run(word: &mut [u32], count: usize)
    requires { count ≤ length word.old }
    ensures { Written 0 count (λ i. 0) word.old word.new }
{
    word[..count].fill(0);
}

// The places from a on take in those from `from` on. Both are places of one slice, so they go by index.
pub fn join_run(word: &mut [u32], a: usize, from: usize, count: usize)
    requires { (a + count ≤ from) × (from + count ≤ length word.old) }
    ensures { Written a count (λ c. at word.old (a + c) ⊕ at word.old (from + c)) word.old word.new }
{
    for c in 0..count {
        word[a + c] ^= word[from + c];
    }
}
