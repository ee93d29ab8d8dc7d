// What the program's arguments mean, and what it says of itself.
ghost use Rattle.std.specs.Prelude.{◌≡◌};
ghost use Rattle.program.specs.Choice.{choice_of, meaning_of};
ghost use Rattle.program.specs.Shown.{usage_text, version_text};

// What to do: read standard input, or the file that is named, or say how the program is used, or its version. The last two are faults.
#[derive(Clone, Copy)]
pub enum Choice {
    Standard,
    File,
    Help,
    Version,
    Unknown,
    TooMany,
}

// One argument.
// Kept as it is: of the cases of a `match` on byte strings the proof is told lengths and no bytes.
fn meaning(argument: &[u8]) -> Choice
    ensures { result ≡ meaning_of argument.now }
{
    if lines::is_text(argument, b"-") {
        Choice::Standard
    } else if lines::is_text(argument, b"--help") {
        Choice::Help
    } else if lines::is_text(argument, b"-h") {
        Choice::Help
    } else if lines::is_text(argument, b"--version") {
        Choice::Version
    } else if argument.starts_with(b"-") {
        Choice::Unknown
    } else {
        Choice::File
    }
}

// `count` arguments, the program's own name among them; `first` is the one after it.
pub fn choose(count: usize, first: &[u8]) -> Choice
    ensures { result ≡ choice_of count first.now }
{
    if count < 2 {
        Choice::Standard
    } else if count > 2 {
        Choice::TooMany
    } else {
        meaning(first)
    }
}

// How the program is used.
pub fn usage() -> [u8; 541]
    ensures { result ≡ usage_text }
{
    *b"usage: tally [FILE]\n\
      Reads a capture, FILE or standard input (none or -), and writes what came of it.\n\
      A line for each word: outcome, page or refusal, symbols restored.\n\
      taken: the page is counted; again: it had come before; refused: not counted,\n\
      by 1 shape, 2 length, 3 width, 4 damage, 5 page, 6 count, 7 function, 8 tail, 10 text.\n\
      Then the functions that were called: function, calls. If the line\n\
      'function calls' is missing, there is no tally: the first three lines are at fault,\n\
      or the input could not be read to its end. More: man tally.\n"
}

// Name and version.
pub fn version() -> [u8; 12]
    ensures { result ≡ version_text }
{
    *b"tally 0.1.0\n"
}
