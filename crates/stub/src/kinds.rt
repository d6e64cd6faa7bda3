// What some of the words number. Outside of the words only the names are used.
ghost use Rattle.std.specs.Prelude.{◌≡◌};
ghost use Rattle.stub.specs.Kinds.{mode_number, mode_of, signal_number, line_number, line_of};

// What the session is in the middle of.
#[derive(Clone, Copy, PartialEq, Eq)]
pub enum Mode {
    Idle,
    Continue,
    Step,
    Range,
    Detaching,
    Ending,
}

impl From<u64> for Mode {
    ghost from_gives = { λ number mode. mode ≡ mode_of number };

    // A number that is none of them is taken as Idle.
    fn from(number: u64) -> Mode {
        match number {
            1 => Mode::Continue,
            2 => Mode::Step,
            3 => Mode::Range,
            4 => Mode::Detaching,
            5 => Mode::Ending,
            _ => Mode::Idle,
        }
    }
}

impl From<Mode> for u64 {
    ghost from_gives = { λ mode number. number ≡ mode_number mode };

    fn from(mode: Mode) -> u64 {
        mode as u64
    }
}

// A signal, by gdb's number.
#[derive(Clone, Copy, PartialEq, Eq)]
pub enum Signal {
    Interrupt = 2,
    Trap = 5,
    Bus = 10,
}

impl From<Signal> for u64 {
    ghost from_gives = { λ signal number. number ≡ signal_number signal };

    fn from(signal: Signal) -> u64 {
        signal as u64
    }
}

// A line for standard error.
#[derive(Clone, Copy, PartialEq, Eq)]
pub enum Line {
    Emptied = 1,
    TwoMatches = 2,
    Refused = 3,
}

impl TryFrom<u64> for Line {
    ghost try_from_gives = { λ number r. r ≡ line_of number };

    // The number itself, which is none of theirs.
    type Error = u64;

    fn try_from(number: u64) -> Result<Line, u64> {
        match number {
            1 => Ok(Line::Emptied),
            2 => Ok(Line::TwoMatches),
            3 => Ok(Line::Refused),
            _ => Err(number),
        }
    }
}

impl From<Line> for u64 {
    ghost from_gives = { λ line number. number ≡ line_number line };

    fn from(line: Line) -> u64 {
        line as u64
    }
}
