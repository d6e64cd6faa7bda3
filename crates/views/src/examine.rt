// x, xp: some units of memory, as the machine sees them now or by their physical address.
ghost use Rattle.std.specs.Prelude.{◌<◌};

use forms::kinds::{Format, Look, Unit};
use image::lent::Seen;
use inquiry::reading::{Read, Unread, physical_unit, virtual_unit};
use screen::memory_units;
use screen::memory_units::{Begins, CUT, Shown};
use std::fmt;

// The most units that are shown at once.
const MOST: u64 = 4096;

#[derive(Clone, Copy)]
pub struct Examined<'a> {
    pub look: Look,
    pub lent: Seen<'a>,
}

// The next unit: its address, and its place on the line.
#[derive(Clone, Copy)]
struct Next {
    address: u32,
    place: u32,
}

// Characters are bytes.
fn unit(look: Look) -> Unit {
    match look.format {
        Format::Character => Unit::Byte,
        _ => look.unit,
    }
}

fn bytes(unit: Unit) -> u32 {
    match unit {
        Unit::Byte => 1,
        Unit::Half => 2,
        Unit::Word => 4,
    }
}

fn on_line(unit: Unit) -> u32
    ensures { 0 < result }
{
    match unit {
        Unit::Byte | Unit::Half => 8,
        Unit::Word => 4,
    }
}

// The 32 bits of a signed unit.
fn signed(unit: Unit, value: u32) -> u32 {
    match unit {
        Unit::Byte if 0x80 <= value => value | 0xFFFF_FF00,
        Unit::Half if 0x8000 <= value => value | 0xFFFF_0000,
        _ => value,
    }
}

fn hex(unit: Unit, value: u32) -> Shown {
    match unit {
        Unit::Byte => Shown::Byte((value % 0x100) as u8),
        Unit::Half => Shown::Half((value % 0x1_0000) as u16),
        Unit::Word => Shown::Word(value),
    }
}

fn shown(look: Look, value: u32) -> Shown {
    match look.format {
        Format::Hex => hex(look.unit, value),
        Format::Signed => Shown::Signed(signed(look.unit, value)),
        Format::Unsigned => Shown::Unsigned(value),
        Format::Character => Shown::Character((value % 0x100) as u8),
    }
}

// Behind the last unit of a line the line ends.
fn behind(look: Look, at: Next) -> Next {
    let unit = unit(look);
    Next {
        address: at.address.wrapping_add(bytes(unit)),
        place: (at.place % 8 + 1) % on_line(unit),
    }
}

fn valued(look: Look, at: Next, value: u32) -> memory_units::Unit {
    memory_units::Unit {
        begins: if at.place == 0 {
            Begins::Line
        } else {
            Begins::GoesOn
        },
        address: at.address,
        shown: shown(look, value),
        ends: behind(look, at).place == 0,
    }
}

// Why nothing can be shown at an address.
fn told(at: Next, unread: Unread) -> memory_units::Unit {
    memory_units::Unit {
        begins: if at.place == 0 {
            Begins::Line
        } else {
            Begins::Anew
        },
        address: at.address,
        shown: match unread {
            Unread::Raises { code } => Shown::Raises(code),
            Unread::Device => Shown::Device,
            Unread::TwoMatch => Shown::TwoMatch,
        },
        ends: false,
    }
}

impl Examined<'_> {
    fn read(&self, address: u32) -> Read {
        let unit = unit(self.look);
        if self.look.physical {
            physical_unit(self.lent, unit, address)
        } else {
            virtual_unit(self.lent, unit, address)
        }
    }

    // All units, up to the first that can't be read. The last line is ended.
    fn units<W: fmt::Write>(&self, f: &mut fmt::Formatter<W>) -> fmt::Result {
        let look = self.look;
        let mut at = Next {
            address: (look.address % 0x1_0000_0000) as u32,
            place: 0,
        };
        for _ in 0..look.count.min(MOST) {
            match self.read(at.address) {
                Ok(value) => write!(f, "{}", valued(look, at, value))?,
                Err(unread) => return write!(f, "{}", told(at, unread)),
            }
            at = behind(look, at);
        }
        if at.place == 0 {
            return Ok(());
        }
        f.write_str("\n")
    }
}

impl fmt::Display for Examined<'_> {
    fn fmt<W: fmt::Write>(&self, f: &mut fmt::Formatter<W>) -> fmt::Result {
        self.units(f)?;
        if self.look.count <= MOST {
            return Ok(());
        }
        f.write_str(CUT)
    }
}
