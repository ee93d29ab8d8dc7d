// What the program does next, step by step, from what came of the step before, and what it tells a person (RULES 7.5). `main` makes the system calls and reports.
#![tactic(auto)]

mod argument;
mod said;
mod shown;
mod text;

ghost use Rattle.std.specs.Prelude.{◌≡◌, ◌+◌, ◌≤◌, min, length};
ghost use Rattle.session.specs.Session.{Consistent};
ghost use Rattle.program.specs.Moves.{begun, toward_of, onward_of, received_of, taken_of, written_of, looked_of};
ghost use Rattle.program.specs.Steps.{Took, Closing, goes_on};

pub use argument::{Choice, choose, usage, version};
use capture::Reader;
pub use said::{complaint, ending, too_many, unknown};
pub use shown::progress;
pub use text::Text;

// Read a block; hand over the block; write the output that waits; look at the clock; draw the progress line; hand over the reader at the end of the input; say what there is to say; name what failed, with the system's reason; stop.
#[derive(Clone, Copy)]
pub enum Action {
    Read,
    Take,
    Write,
    Look,
    Draw,
    Close,
    Say,
    BlameInput,
    BlameOutput,
    Stop,
}

// `more`: there may be more to read. The limit leaves `left` bytes. The block has `count` bytes that are not taken.
#[derive(Clone, Copy)]
pub struct Input {
    pub more: bool,
    pub left: usize,
    pub count: usize,
}

// `error`: standard error is a terminal. `progress`: and standard output is none. `drawn`: a progress line stands there. `second` is that in which it was drawn, or the program began.
#[derive(Clone, Copy)]
pub struct Watch {
    pub error: bool,
    pub progress: bool,
    pub drawn: bool,
    pub second: u64,
}

// What is next, the input, the size of the output that waits, and what a person is shown.
#[derive(Clone, Copy)]
pub struct State {
    pub action: Action,
    pub input: Input,
    pub size: usize,
    pub watch: Watch,
}

#[derive(Clone, Copy)]
pub struct Taken {
    pub reader: Reader,
    pub state: State,
}

impl State {
    // The beginning, where output of this size waits, and standard error and standard output are terminals or not. The first block is read before anything is written.
    pub fn begin(size: usize, error: bool, output: bool, second: u64) -> State
        ensures { result ≡ begun size error output second }
    {
        State {
            action: Action::Read,
            input: Input {
                more: true,
                left: capture::limit(),
                count: 0,
            },
            size,
            watch: Watch {
                error,
                progress: error && !output,
                drawn: false,
                second,
            },
        }
    }

    // The same with this to do.
    pub fn toward(self, action: Action) -> State
        ensures { result ≡ toward_of action self }
    {
        State { action, ..self }
    }

    // There is something left to do.
    pub fn goes_on(self) -> bool
        ensures { result ≡ goes_on self.action }
    {
        !matches!(self.action, Action::Stop)
    }

    // How many bytes are asked for.
    pub fn wanted(self) -> usize
        ensures { result ≡ min self.input.left 16384 }
    {
        self.input.left.min(16384)
    }

    // On with this where there may be more to read, and to the last output where there is not.
    fn onward(self, input: Input, next: Action, size: usize) -> State
        ensures { result ≡ onward_of self input next size }
    {
        State {
            action: if input.more { next } else { Action::Close },
            input,
            size,
            ..self
        }
    }

    // So many bytes were read, none at the end of the input.
    pub fn received(self, count: usize) -> State
        requires { count ≤ self.input.left }
        ensures { result ≡ received_of self count }
    {
        let input = Input {
            more: count != 0,
            left: self.input.left - count,
            count,
        };
        self.onward(input, Action::Take, self.size)
    }

    // The read failed.
    pub fn read_failed(self) -> State
        ensures { result ≡ toward_of Action.BlameInput self }
    {
        self.toward(Action::BlameInput)
    }

    // After a block, whose answers make the output this long. After a fault, and past the limit, nothing is read.
    fn moved(self, ended: bool, size: usize) -> State
        ensures { result ≡ taken_of self ended size }
    {
        let input = Input {
            more: !ended && self.input.left != 0,
            count: 0,
            ..self.input
        };
        self.onward(input, Action::Write, size)
    }

    // Takes the block.
    pub fn take(self, reader: Reader, block: &[u8], line: &mut [u8], out: &mut [u8]) -> Taken
        requires { Consistent reader.tally.session × (length block.now ≤ 16384) × (length line.old ≡ 16384) × (self.size + 491560 ≤ length out.old) }
        ensures { Took self reader line.old block.now out.old line.new out.new result }
    {
        let reader = capture::take_block(reader, self.size, block, line, out);
        let state = self.moved(capture::has_ended(reader), reader.at);
        Taken { reader, state }
    }

    // The output at the end of the input.
    pub fn close(self, reader: Reader, out: &mut [u8]) -> Taken
        requires { self.size + 5687 ≤ length out.old }
        ensures { Closing self reader out.old out.new result }
    {
        let reader = capture::finish(reader, self.size, out);
        let state = State {
            action: Action::Write,
            size: reader.at,
            ..self
        };
        Taken { reader, state }
    }

    // The output is written. What follows it is the end, a look at the clock where progress is shown, or the next block.
    pub fn written(self) -> State
        ensures { result ≡ written_of self }
    {
        let action = match self.input.more {
            false => Action::Say,
            true if self.watch.progress => Action::Look,
            true => Action::Read,
        };
        State {
            action,
            size: 0,
            ..self
        }
    }

    // The write failed.
    pub fn write_failed(self) -> State
        ensures { result ≡ toward_of Action.BlameOutput self }
    {
        self.toward(Action::BlameOutput)
    }

    // The clock's second. The progress line is drawn once a second at most.
    pub fn looked(self, second: u64) -> State
        ensures { result ≡ looked_of self second }
    {
        if second == self.watch.second {
            return self.toward(Action::Read);
        }
        State {
            action: Action::Draw,
            watch: Watch {
                drawn: true,
                second,
                ..self.watch
            },
            ..self
        }
    }

    // The progress line is drawn.
    pub fn drew(self) -> State
        ensures { result ≡ toward_of Action.Read self }
    {
        self.toward(Action::Read)
    }

    // All is said.
    pub fn stopped(self) -> State
        ensures { result ≡ toward_of Action.Stop self }
    {
        self.toward(Action::Stop)
    }
}
