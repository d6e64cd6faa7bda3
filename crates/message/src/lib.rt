// What is said of what was done or refused, and perhaps of where the machine stands.
#![tactic(auto)]

pub mod refused; // why something is refused
pub mod ran; // how far a run came, and why it ended
pub mod blame; // who changed a word, and when its frame was changed

use crate::blame::{Change, Frame};
use crate::ran::Ran;
use crate::refused::Refused;
use phrase::{Address, Grouped, Steps, Word, lay};
use std::fmt;

#[derive(Clone, Copy)]
pub enum Message {
    Refused(Refused),
    Ran(Ran),
    // A run goes on, and Ctrl-C ends it.
    GoesOn { steps: u64 },
    TakenBack { steps: u64 },
    Loaded { bytes: u64, address: u64 },
    Made,
    Restored,
    Blamed { change: Change, frame: Frame },
    // Nothing has changed since the last save.
    Unchanged,
    Saved,
    NotSaved,
    LineFeed,
    // A session begins, with a station or without.
    Welcome { is_there: bool },
}

impl fmt::Display for Message {
    fn fmt<W: fmt::Write>(&self, f: &mut fmt::Formatter<W>) -> fmt::Result {
        match *self {
            Message::Refused(refused) => write!(f, "{refused}"),
            Message::Ran(ran) => write!(f, "{ran}"),
            Message::GoesOn { steps } => {
                write!(f, "\r{} so far; Ctrl-C ends the run. ", Steps(steps))
            }
            Message::TakenBack { steps } => write!(f, "Took back {}.\n", Steps(steps)),
            Message::Loaded { bytes, address } => loaded(f, bytes, address),
            Message::Made => f.write_str(
                "The station is made, and its machine is reset. It is saved when you quit.\n",
            ),
            Message::Restored => f.write_str(
                "The save before the last one is back, and is the newest save now.\n",
            ),
            Message::Blamed { change, frame } => write!(f, "{change}{frame}"),
            Message::Unchanged => f.write_str("Nothing has changed since the last save.\n"),
            Message::Saved => f.write_str("Saved.\n"),
            Message::NotSaved => f.write_str(
                "Not saved, so the session stays. Say quit to try again, or abandon.\n",
            ),
            Message::LineFeed => f.write_str("\n"),
            Message::Welcome { is_there } => welcome(f, is_there),
        }
    }
}

fn loaded<W: fmt::Write>(f: &mut fmt::Formatter<W>, bytes: u64, address: u64) -> fmt::Result {
    write!(
        f,
        "Loaded {} bytes at {}.\n\
        The journal is empty now: what a load writes is no step to be taken back.\n",
        Grouped(bytes),
        Address(address)
    )
}

fn welcome<W: fmt::Write>(f: &mut fmt::Formatter<W>, is_there: bool) -> fmt::Result {
    f.write_str("Lavushmir. Say help for what there is to say, quit to save and leave.\n")?;
    if is_there {
        return Ok(());
    }
    f.write_str("There is no station here yet: help new says how to make one.\n")
}

// Whether it is also said where the machine stands.
fn stands(message: Message) -> bool {
    matches!(
        message,
        Message::Ran(_)
            | Message::TakenBack { .. }
            | Message::Made
            | Message::Restored
            | Message::Blamed {
                change: Change::Stood(_),
                ..
            }
    )
}

// Where the machine stands.
#[derive(Clone, Copy)]
struct Standing {
    pc: u32,
    clock: u64,
    on_hand: u64,
}

impl Standing {
    fn of(image: &[u8]) -> Standing {
        Standing {
            pc: image::word(image, image::PC),
            clock: image::clock(image),
            on_hand: image::word(image, image::ON_HAND) as u64,
        }
    }
}

impl fmt::Display for Standing {
    fn fmt<W: fmt::Write>(&self, f: &mut fmt::Formatter<W>) -> fmt::Result {
        write!(
            f,
            "Now: PC {}, clock {}, {} on hand.\n",
            Word(self.pc),
            Grouped(self.clock),
            Steps(self.on_hand)
        )
    }
}

pub fn say(out: &mut [u8], at: usize, image: &[u8], message: Message) -> usize {
    let at = lay(out, at, message);
    if !stands(message) {
        return at;
    }
    lay(out, at, Standing::of(image))
}
