// What a turn asks of the machine, and what came of it.
use forms::kinds::Fresh;
use message::blame::{Change, Frame};
use message::ran::End;

// Whose last change is looked for, and whether the machine is to stay before that step.
#[derive(Clone, Copy)]
pub struct Asked {
    pub address: u64,
    pub stay: bool,
}

// The three parameters of a reset.
#[derive(Clone, Copy)]
pub struct Settings {
    pub scale: u64,
    pub delay: u64,
    pub installed: u64,
}

#[derive(Clone, Copy)]
pub enum Work {
    // Whether a station can be made like this.
    Judge(Fresh),
    Make(Settings),
    // The file's bytes are put into RAM at an address.
    Load { address: u64 },
    // At most so many steps, and whether they stop at an exception.
    Run { steps: u64, stops: bool },
    Back { steps: u64 },
    Blame(Asked),
}

#[derive(Clone, Copy)]
pub enum Worked {
    Accepted(Fresh),
    Made,
    Loaded { bytes: u64, address: u64 },
    Ran { steps: u64, end: End },
    TakenBack { steps: u64 },
    Blamed { change: Change, frame: Frame },
}
