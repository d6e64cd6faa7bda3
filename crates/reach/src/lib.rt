// Document 01, "Addresses": where an access lands, or which exception it is.
#![tactic(auto)]

ghost use Rattle.std.specs.Prelude.{◌≡◌};
ghost use Rattle.reach.specs.Reach.{bus_after, physical_of, meets_two};

use access::Access;
use board::places::{Place, Sizes};
use cp0::privilege::Mode;
use tlb::Row;

pub mod access; // what an instruction asks of an address
mod bus; // what the board gives it there
pub mod check; // alignment and privilege
pub mod codes; // the exceptions' numbers
pub mod plain; // an access that needs neither the table nor the map
pub mod translate; // the physical address, by the table

// The exception that an access is, with its code, and whether no entry of the table matched. The bool stands first, where a place has its tag, and the code where a place
// has its offset, so that neither overlaps a half of the other.
#[derive(Clone, Copy)]
pub struct Fault {
    pub miss: bool,
    pub code: u32,
}

pub type Reached = Result<Place, Fault>;

// Alignment and privilege, then the table. `entry` is the EntryHi register.
pub fn physical(
    mode: Mode,
    access: Access,
    a: u32,
    rows: [Row; 16],
    entry: u32,
) -> Result<u32, Fault>
    ensures { result ≡ physical_of mode access a rows entry }
{
    let kind = access.kind;
    if !check::checked(mode, access.width, a) {
        let code = check::address_error(kind);
        return Err(Fault { miss: false, code });
    }
    translate::translate(mode, kind, a, rows, entry)
}

// Then the bus. Apart from `physical`, which is long and stays a call of its own: a place handed back by a call is stored as a tag and a number, and the caller would wait
// to read both at once (docs/SPEED.md).
pub fn landed(access: Access, sizes: Sizes, to: Result<u32, Fault>) -> Reached
    ensures { result ≡ bus_after access sizes to }
{
    bus::on_bus(access.kind, access.width, sizes, to?)
}

// Request L5: whether the access meets two matches. Alignment and privilege come first, and then no search is made.
pub fn meets_two(mode: Mode, access: Access, a: u32, rows: [Row; 16], entry: u32) -> bool
    ensures { result ≡ meets_two mode access a rows entry }
{
    if !check::checked(mode, access.width, a) {
        return false;
    }
    translate::twice(mode, a, rows, entry)
}
