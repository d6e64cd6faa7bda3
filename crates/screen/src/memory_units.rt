// x: units of memory, some on a line behind the address of the first.
use phrase::{Byte, Character, Decimal, Exception, Half, Signed, Word};
use std::fmt;

// How a line begins.
#[derive(Clone, Copy, PartialEq, Eq, Debug)]
pub enum Begins {
    // Not before this unit.
    GoesOn,
    // With the address.
    Line,
    // So, behind the end of the line that was open.
    Anew,
}

// A unit as it is shown, or why there is none.
#[derive(Clone, Copy, PartialEq, Eq, Debug)]
pub enum Shown {
    Byte(u8),
    Half(u16),
    Word(u32),
    Signed(u32),
    Unsigned(u32),
    Character(u8),
    Raises(u32),
    Device,
    TwoMatch,
}

#[derive(Clone, Copy)]
pub struct Unit {
    pub begins: Begins,
    pub address: u32,
    pub shown: Shown,
    // The line ends behind the unit.
    pub ends: bool,
}

// Behind as many units as are shown at once, where there are more.
pub const CUT: &str = "x shows at most 4,096 at once.\n";

const TWO_MATCH: &str = " two entries of the translation table match. See info tlb.\n";

impl fmt::Display for Shown {
    fn fmt<W: fmt::Write>(&self, f: &mut fmt::Formatter<W>) -> fmt::Result {
        match *self {
            Shown::Byte(byte) => write!(f, " {}", Byte(byte)),
            Shown::Half(half) => write!(f, " {}", Half(half)),
            Shown::Word(word) => write!(f, " {}", Word(word)),
            Shown::Signed(word) => write!(f, " {}", Signed(word)),
            Shown::Unsigned(word) => write!(f, " {}", Decimal(word as u64)),
            Shown::Character(byte) => write!(f, " {}", Character(byte)),
            Shown::Raises(code) => write!(
                f,
                " no access: exception {} {}\n",
                Decimal(code as u64),
                Exception(code),
            ),
            Shown::Device => f.write_str(" the device area. See info clocks, info printers.\n"),
            Shown::TwoMatch => f.write_str(TWO_MATCH),
        }
    }
}

impl fmt::Display for Unit {
    fn fmt<W: fmt::Write>(&self, f: &mut fmt::Formatter<W>) -> fmt::Result {
        match self.begins {
            Begins::GoesOn => {}
            Begins::Line => write!(f, "{}:", Word(self.address))?,
            Begins::Anew => write!(f, "\n{}:", Word(self.address))?,
        }
        let end = if self.ends { "\n" } else { "" };
        write!(f, "{}{end}", self.shown)
    }
}
