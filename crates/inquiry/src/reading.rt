// What the machine would read at an address.
use crate::address::{meets_two, on_bus, through_table};
use board::places::{Place, Sizes};
use forms::kinds::Unit;
use image::lent::Seen;
use reach::Reached;
use reach::access::{Access, Kind, Width};

// Why nothing can be shown there.
#[derive(Clone, Copy)]
pub enum Unread {
    Raises { code: u32 },
    // A word of the device area, which info clocks and info printers show.
    Device,
    // Two entries of the table match.
    TwoMatch,
}

pub type Read = Result<u32, Unread>;

// 0 where the unit is not whole.
// Stays: (d) with an Option each caller would say `unit_at(..).unwrap_or(0)`.
pub fn unit_at(bytes: &[u8], at: usize, unit: Unit) -> u32 {
    let room = bytes.len().saturating_sub(at);
    match unit {
        Unit::Byte if 1 <= room => memory::load_byte(bytes, at) as u32,
        Unit::Half if 2 <= room => memory::load_half(bytes, at) as u32,
        Unit::Word if 4 <= room => memory::load_word(bytes, at),
        _ => 0,
    }
}

fn load(unit: Unit) -> Access {
    Access {
        kind: Kind::Load,
        width: match unit {
            Unit::Byte => Width::One,
            Unit::Half => Width::Two,
            Unit::Word => Width::Four,
        },
    }
}

fn sizes(lent: Seen) -> Sizes {
    Sizes {
        ram: (lent.ram.len() % 0x1_0000_0000) as u32,
        execution: (lent.execution.len() % 0x1_0000_0000) as u32,
        bootstrap: (lent.bootstrap.len() % 0x1_0000_0000) as u32,
    }
}

fn place(reached: Reached) -> Result<Place, Unread> {
    match reached {
        Ok(place) => Ok(place),
        Err(fault) => Err(Unread::Raises { code: fault.code }),
    }
}

fn at_place(lent: Seen, place: Place, unit: Unit) -> Read {
    match place {
        Place::Ram(offset) => Ok(unit_at(lent.ram, offset as usize, unit)),
        Place::Execution(offset) => Ok(unit_at(lent.execution, offset as usize, unit)),
        Place::Bootstrap(offset) => Ok(unit_at(lent.bootstrap, offset as usize, unit)),
        Place::Device(_) => Err(Unread::Device),
    }
}

pub fn virtual_unit(lent: Seen, unit: Unit, address: u32) -> Read {
    let load = load(unit);
    if meets_two(lent.image, load, address) {
        return Err(Unread::TwoMatch);
    }
    let place = place(through_table(lent.image, load, sizes(lent), address))?;
    at_place(lent, place, unit)
}

pub fn physical_unit(lent: Seen, unit: Unit, address: u32) -> Read {
    let place = place(on_bus(load(unit), sizes(lent), address))?;
    at_place(lent, place, unit)
}

// The word at PC, which the next step fetches.
pub fn instruction(lent: Seen) -> Read {
    let access = Access {
        kind: Kind::Fetch,
        width: Width::Four,
    };
    let pc = image::word(lent.image, image::PC);
    let place = place(through_table(lent.image, access, sizes(lent), pc))?;
    at_place(lent, place, Unit::Word)
}
