// How many checks the judging of each position looks at.
ghost use Rattle.std.specs.Prelude.{◌≡◌, ◌+◌, ◌*◌, ◌<◌, length};
ghost use Rattle.parity.specs.Lists.{tabulate, Begins};
ghost use Rattle.gtb.specs.Shape.{word_length};
ghost use Rattle.gtb.specs.Square.{at};
ghost use Rattle.decoder.specs.Looking.{looked_at};
ghost use Rattle.decoder.specs.Steps.{looked_in};

use crate::locate::judge;
use correction::checks::Checks;
use correction::row::Row;

// One row of the list.
fn note_row(checks: Checks, syn: &[u32; 248], row: usize, looked: &mut [u32])
    requires { (row < checks.shape.q) × Begins (word_length checks.shape) (row * checks.shape.q) (looked_in checks.shape syn.now) looked.old }
    ensures { Begins (word_length checks.shape) (row * checks.shape.q + checks.shape.q) (looked_in checks.shape syn.now) looked.new }
{
    let q = checks.shape.q as usize;
    let own = syn[row];
    let mut room = [0usize; 8];
    let in_row = Row::of(checks, row, &mut room);
    for c in 0..q {
        let judged = judge(in_row, syn, own, c);
        looked[row * q + c] = judged.looked;
    }
}

// The whole list.
pub fn note(checks: Checks, word: &[u32], looked: &mut [u32])
    requires { (length word.now ≡ word_length checks.shape) × (length looked.old ≡ word_length checks.shape) }
    ensures { looked.new ≡ tabulate (word_length checks.shape) (looked_at checks.shape (at word.now)) }
{
    let syn = syndrome::syndromes(checks.shape, word);
    let q = checks.shape.q as usize;
    for row in 0..q {
        note_row(checks, &syn, row, looked);
    }
}
