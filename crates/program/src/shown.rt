// Texts that a person reads.
ghost use Rattle.std.specs.Prelude.{◌≡◌, ◌++◌, ◌+◌, ◌≤◌, length};
ghost use Rattle.capture.specs.Feed.{read_limit};
ghost use Rattle.program.specs.Shown.{lowest_text, progress_text};
ghost use Rattle.program.specs.Moves.{progress_of};

use crate::{State, Text};
use capture::Reader;

// The lowest page that has not come.
fn put_lowest(text: &mut Text, lowest: u32)
    requires { length text.old + 25 ≤ 400 }
    ensures { text.new ≡ text.old ++ lowest_text lowest }
{
    if lowest < 1024 {
        text.put(b"lowest missing ");
        text.put_number(lowest);
    } else {
        text.put(b"no page missing");
    }
}

fn progress_text(read: u32, pages: u32, lowest: u32) -> Text
    ensures { result ≡ progress_text read pages lowest }
{
    let mut text = Text::new();
    text.put(b"\r\x1b[K");
    text.put_numbered(read / 1000000, b" MB read, ");
    text.put_numbered(pages, b" pages taken, ");
    put_lowest(&mut text, lowest);
    text
}

// How far the program has come.
pub fn progress(state: State, reader: Reader) -> Text
    requires { state.input.left ≤ read_limit }
    ensures { result ≡ progress_of state reader.tally.session }
{
    let session = reader.tally.session;
    let read = (capture::limit() - state.input.left) as u32;
    progress_text(read, session.pages, session.lowest)
}
