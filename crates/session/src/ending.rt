// What a turn answers: what it wants, the exit status, the stream, and how many bytes it wrote.
use crate::exit::Exit;
use crate::mode::Mode;
use crate::words::{LINES, enter, has_changed, is_at_prompt, is_one_command, set_status};
use phrase::{Decimal, lay};
use std::fmt;

// What the session wants, by the numbers of include/station.h.
#[derive(Clone, Copy)]
pub enum Wants {
    Input = 0,
    GoOn = 1,
    Save = 2,
    End = 3,
    File = 4,
    Make = 5,
    Other = 6,
    Restore = 7,
}

impl From<Wants> for u8 {
    fn from(wants: Wants) -> u8 {
        wants as u8
    }
}

// Where the bytes go.
#[derive(Clone, Copy)]
enum Stream {
    Output = 0,
    Error = 1,
}

impl From<Stream> for u8 {
    fn from(stream: Stream) -> u8 {
        stream as u8
    }
}

// What is laid last.
#[derive(Clone, Copy)]
enum Last {
    Prompt,
    // The script stops at this line.
    Stopped { line: u64 },
}

impl fmt::Display for Last {
    fn fmt<W: fmt::Write>(&self, f: &mut fmt::Formatter<W>) -> fmt::Result {
        match *self {
            Last::Prompt => write!(f, "station> "),
            Last::Stopped { line } => write!(
                f,
                "The script stops at its line {}. What the lines before it did is kept.\n",
                Decimal(line)
            ),
        }
    }
}

// How a turn ends.
#[derive(Clone, Copy)]
pub enum Then {
    // The next line is wanted.
    Ask,
    // Something is wanted that this turn can't do.
    Want(Wants),
    // What was asked for is refused, and `out` says why. A script or the arguments end there; at a prompt one goes on.
    Refuse(Exit),
    // Ctrl-C ended what was asked for. That is how some runs are meant to end, but a script ends with it.
    Pause,
    // The session ends; what has changed is saved before.
    Finish(Exit),
    // The session ends and saves nothing.
    End(Exit),
}

// All that a turn answers but for the bytes, and what is laid last.
#[derive(Clone, Copy)]
struct Closing {
    wants: Wants,
    status: Exit,
    stream: Stream,
    last: Option<Last>,
}

fn packed(closing: Closing, bytes: usize) -> u64 {
    u8::from(closing.wants) as u64
        + u8::from(closing.status) as u64 * 0x100
        + u8::from(closing.stream) as u64 * 0x1_0000
        + bytes as u64 % 0x1_0000_0000 * 0x1_0000_0000
}

// Nothing is laid last, and the exit status is none yet.
fn want(wants: Wants) -> Closing {
    Closing {
        wants,
        status: Exit::Done,
        stream: Stream::Output,
        last: None,
    }
}

fn ask(session: &mut [u64; 32]) -> Closing {
    enter(session, Mode::Idle);
    let last = if is_at_prompt(session) {
        Some(Last::Prompt)
    } else {
        None
    };
    Closing {
        last,
        ..want(Wants::Input)
    }
}

fn end(status: Exit) -> Closing {
    Closing {
        status,
        ..want(Wants::End)
    }
}

fn save_and_end(session: &mut [u64; 32], status: Exit) -> Closing {
    set_status(session, status);
    enter(session, Mode::Ending);
    if has_changed(session) {
        want(Wants::Save)
    } else {
        end(status)
    }
}

fn refuse(session: &mut [u64; 32], status: Exit) -> Closing {
    if is_at_prompt(session) {
        return ask(session);
    }
    let last = if is_one_command(session) {
        None
    } else {
        Some(Last::Stopped {
            line: session[LINES],
        })
    };
    Closing {
        stream: Stream::Error,
        last,
        ..save_and_end(session, status)
    }
}

fn pause(session: &mut [u64; 32]) -> Closing {
    if is_one_command(session) {
        return ask(session);
    }
    refuse(session, Exit::Refused)
}

fn ending(session: &mut [u64; 32], then: Then) -> Closing {
    match then {
        Then::Ask => ask(session),
        Then::Want(wants) => want(wants),
        Then::Refuse(status) => refuse(session, status),
        Then::Pause => pause(session),
        Then::Finish(status) => save_and_end(session, status),
        Then::End(status) => end(status),
    }
}

// `out` is laid up to `at`.
pub fn answer(session: &mut [u64; 32], then: Then, out: &mut [u8], at: usize) -> u64 {
    let closing = ending(session, then);
    let at = match closing.last {
        Some(last) => lay(out, at, last),
        None => at,
    };
    packed(closing, at.min(out.len()))
}
