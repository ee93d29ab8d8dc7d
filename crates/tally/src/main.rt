// The tally of a capture, a file or standard input, to standard output. What to do is decided in `program`; this reads, writes and looks at the clock, and reports what came of it.
#![tactic(auto)]

ghost use Rattle.std.specs.Prelude.{◌≡◌, ◌≤◌, ◌<◌, length};
ghost use Rattle.program.specs.declared.Action.TheVariants as action;
ghost use Rattle.program.specs.Moves.{toward_of};
ghost use Rattle.program.specs.Steps.{rank, Sound, Stepped};

use capture::Reader;
use program::{Action, Choice, State};
use std::env::{Env, FillError};
use std::fs::File;
use std::io;
use std::io::{IsTerminal, Read, Write};
use std::time::Clock;

// The numbers that the system has for two errors: a name that is too long, and one whose bytes are no text.
const NAME_TOO_LONG: i32 = 36;

const NO_TEXT: i32 = 84;

// To standard error. What could not be said there is not said elsewhere.
fn say(rt: &HostRuntime, text: &[u8]) {
    let _ = rt.stderr().write_all(text);
}

// What the system says of an error, in this buffer. Of `std`'s text the number that ends it is left out.
fn put_reason(reason: io::Error, text: &mut [u8]) -> &[u8]
    ensures { length result.now ≤ length text.old }
{
    let all = text.len();
    let mut rest = &mut text[..];
    let _ = write!(rest, "{reason}");
    let left = rest.len();
    let said = &text[..all.saturating_sub(left)];
    if reason.raw_os_error().is_none() {
        return said;
    }
    match said.iter().rposition(|b| *b == b'(') {
        Some(at) => &said[..at.saturating_sub(1)],
        None => said,
    }
}

// Of what is named, why it failed, as a line. `drawn`: a progress line stands there.
fn complain(rt: &HostRuntime, drawn: bool, name: &[u8], reason: io::Error) {
    let mut text = [0u8; 256];
    say(rt, program::complaint(drawn).as_slice());
    say(rt, name);
    say(rt, b": ");
    say(rt, put_reason(reason, &mut text));
    say(rt, b"\n");
}

// What the program says of itself.
fn show(rt: &HostRuntime, text: &[u8]) {
    if let Err(reason) = rt.stdout().write_all(text) {
        complain(rt, false, b"standard output", reason);
    }
}

// An argument is refused.
fn refuse(rt: &HostRuntime, name: &[u8], reason: &[u8]) {
    say(rt, program::complaint(false).as_slice());
    say(rt, name);
    say(rt, reason);
}

// The clock's second. A time before 1970, or one that can't be told, counts as 0.
fn second(rt: &HostRuntime) -> u64 {
    rt.since_1970().map_or(0, |time| time.as_secs())
}

// Reads a block. If that fails, the reason is noted.
fn read(
    input: &mut impl Read,
    state: State,
    block: &mut [u8; 16384],
    reason: &mut io::Error,
) -> State
    requires { Sound state × (state.action ≡ action.Read) }
    ensures { Stepped state result }
{
    match input.read(&mut block[..state.wanted()]) {
        Ok(count) => state.received(count),
        Err(error) => {
            *reason = error;
            state.read_failed()
        }
    }
}

// Writes to standard output. If that fails, the reason is noted.
fn write(rt: &HostRuntime, state: State, text: &[u8], reason: &mut io::Error) -> State
    requires { Sound state × (state.action ≡ action.Write) }
    ensures { Stepped state result }
{
    match rt.stdout().write_all(text) {
        Ok(()) => state.written(),
        Err(error) => {
            *reason = error;
            state.write_failed()
        }
    }
}

// Names what failed, with the system's reason.
fn blame(rt: &HostRuntime, state: State, name: &[u8], reason: io::Error) -> State
    ensures { result ≡ toward_of action.Stop state }
{
    complain(rt, state.watch.drawn, name, reason);
    state.stopped()
}

// What is to be done, where the reader stays as it is. Of the others there is nothing to do here.
fn act(
    rt: &HostRuntime,
    input: &mut impl Read,
    name: &[u8],
    state: State,
    reader: Reader,
    block: &mut [u8; 16384],
    out: &[u8; 500000],
    reason: &mut io::Error,
) -> State
    requires { Sound state }
    ensures { 0 < rank state.action → Stepped state result }
{
    match state.action {
        Action::Read => read(input, state, block, reason),
        Action::Write => write(rt, state, &out[..state.size], reason),
        Action::Look => state.looked(second(rt)),
        Action::Draw => {
            say(rt, program::progress(state, reader).as_slice());
            state.drew()
        }
        Action::Say => {
            say(rt, program::ending(state, reader).as_slice());
            state.stopped()
        }
        Action::BlameInput => blame(rt, state, name, *reason),
        Action::BlameOutput => blame(rt, state, b"standard output", *reason),
        Action::Take | Action::Close | Action::Stop => state.stopped(),
    }
}

// The loop: what is next, until there is nothing.
fn run(rt: &HostRuntime, input: &mut impl Read, name: &[u8]) {
    let mut block = [0; 16384];
    let mut line = [0; 16384];
    let mut out = [0; 500000];
    let mut reader = capture::begin(&mut out);
    let error = rt.stderr().is_terminal();
    let output = rt.stdout().is_terminal();
    let mut reason = io::Error::from(io::ErrorKind::Other);
    let mut state = State::begin(reader.at, error, output, second(rt));
    while state.goes_on() {
        if let Action::Take = state.action {
            let taken = state.take(reader, &block[..state.input.count], &mut line, &mut out);
            reader = taken.reader;
            state = taken.state;
            continue;
        }
        if let Action::Close = state.action {
            let closed = state.close(reader, &mut out);
            reader = closed.reader;
            state = closed.state;
            continue;
        }
        state = act(
            rt,
            input,
            name,
            state,
            reader,
            &mut block,
            &out,
            &mut reason,
        );
    }
}

// A file's name is text.
fn open(rt: &HostRuntime, name: &[u8]) -> io::Result<File> {
    let name = std::str::from_utf8(name).map_err(|_| io::Error::from_raw_os_error(NO_TEXT))?;
    File::open(rt, name)
}

fn run_file(rt: &HostRuntime, name: &[u8]) {
    match open(rt, name) {
        Ok(mut file) => run(rt, &mut file, name),
        Err(reason) => complain(rt, false, name, reason),
    }
}

// Whether there is such an argument.
fn is_there(rt: &HostRuntime, i: usize) -> bool {
    !matches!(rt.arg(i, &mut [0]), Err(FillError::NotPresent))
}

// How many arguments there are, the program's own name among them. More than three count as three.
fn argument_count(rt: &HostRuntime) -> usize {
    if !is_there(rt, 1) {
        1
    } else if !is_there(rt, 2) {
        2
    } else {
        3
    }
}

// The second argument is one too many.
fn refuse_second(rt: &HostRuntime) {
    let mut space = [0u8; 4096];
    let size = rt.arg(2, &mut space).unwrap_or(0);
    refuse(rt, &space[..size], &program::too_many());
}

// An argument that is longer than any name is no file's.
fn main(rt: HostRuntime) {
    let mut space = [0u8; 4096];
    let first = rt.arg(1, &mut space);
    let whole = !matches!(first, Err(FillError::TooLong));
    let size = first.unwrap_or(0);
    match program::choose(argument_count(&rt), &space[..size]) {
        Choice::Standard => run(&rt, &mut rt.stdin(), b"standard input"),
        Choice::File => {
            if whole {
                run_file(&rt, &space[..size]);
            } else {
                complain(
                    &rt,
                    false,
                    &space,
                    io::Error::from_raw_os_error(NAME_TOO_LONG),
                );
            }
        }
        Choice::Help => show(&rt, &program::usage()),
        Choice::Version => show(&rt, &program::version()),
        Choice::Unknown => refuse(&rt, &space[..size], &program::unknown()),
        Choice::TooMany => refuse_second(&rt),
    }
}
