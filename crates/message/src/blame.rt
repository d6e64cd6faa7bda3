// Who changed a word of RAM, and when its frame was changed.
use phrase::{Address, Grouped, Steps, Word};
use std::fmt;

// The step that changed the word at `address`.
#[derive(Clone, Copy)]
pub struct Culprit {
    pub address: u64,
    pub ago: u64,
    pub old: u32,
    pub new: u32,
    pub clock: u64,
    pub pc: u32,
    pub instruction: u32,
}

// What is known of the last change of a word.
#[derive(Clone, Copy)]
pub enum Change {
    Found(Culprit),
    // The machine stands just before that step.
    Stood(Culprit),
    // No step on hand changed `address`.
    NotOnHand {
        address: u64,
        holds: u32,
        on_hand: u64,
    },
}

fn found<W: fmt::Write>(f: &mut fmt::Formatter<W>, c: Culprit) -> fmt::Result {
    let address = Address(c.address);
    write!(
        f,
        "{address} was last changed {} ago, from {} to {}:\n\
        \x20 clock {} (after its tick)\n\
        \x20 PC {}, instruction {}\n\
        To stand just before that step: before {address}\n",
        Steps(c.ago),
        Word(c.old),
        Word(c.new),
        Grouped(c.clock),
        Word(c.pc),
        Word(c.instruction)
    )
}

fn stood<W: fmt::Write>(f: &mut fmt::Formatter<W>, c: Culprit) -> fmt::Result {
    write!(
        f,
        "Took back {}.\n\
        The next step changes {} from {} to {},\n\
        by the instruction {}.\n",
        Steps(c.ago),
        Address(c.address),
        Word(c.old),
        Word(c.new),
        Word(c.instruction)
    )
}

impl fmt::Display for Change {
    fn fmt<W: fmt::Write>(&self, f: &mut fmt::Formatter<W>) -> fmt::Result {
        match *self {
            Change::Found(culprit) => found(f, culprit),
            Change::Stood(culprit) => stood(f, culprit),
            Change::NotOnHand {
                address,
                holds,
                on_hand,
            } => write!(
                f,
                "No step on hand changed {}, which holds {}.\n\
                On hand: {}. An older change is not in the journal any more.\n",
                Address(address),
                Word(holds),
                Steps(on_hand)
            ),
        }
    }
}

// The frame that the word lies in: its first address, and the clock of its last change, if a step on hand changed a byte of it.
#[derive(Clone, Copy)]
pub struct Frame {
    pub address: u64,
    pub changed: Option<u64>,
}

impl fmt::Display for Frame {
    fn fmt<W: fmt::Write>(&self, f: &mut fmt::Formatter<W>) -> fmt::Result {
        let address = Address(self.address);
        match self.changed {
            Some(clock) => write!(
                f,
                "The last change in frame {address} was at clock {}.\n",
                Grouped(clock)
            ),
            None => write!(f, "No step on hand changed a byte of frame {address}.\n"),
        }
    }
}
