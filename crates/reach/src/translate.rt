// The physical address of a virtual one, by the table.
ghost use Rattle.std.specs.Prelude.{◌≡◌, ◌&&◌};
ghost use Rattle.reach.specs.Translate.{tlb_error, sought_of, is_locked, by_row, by_found, is_virtual, translated_of};
ghost use Rattle.tlb.specs.Search.{is_twice, found_in};

use crate::Fault;
use crate::access::Kind;
use crate::codes::{MOD, TLBL, TLBS};
use cp0::privilege::Mode;
use tlb::{Hit, Row};
use word::map::has_bit;

fn tlb_error(kind: Kind) -> u32
    ensures { result ≡ tlb_error kind }
{
    match kind {
        Kind::Fetch | Kind::Load => TLBL,
        Kind::Store => TLBS,
    }
}

// The page of an address under the ASID of the EntryHi register.
fn sought(a: u32, entry: u32) -> u32
    ensures { result ≡ sought_of a entry }
{
    a / 4096 * 4096 + entry % 4096
}

// A store to a page with D off.
fn locked(kind: Kind, row: Row) -> bool
    ensures { result ≡ is_locked kind row }
{
    kind == Kind::Store && !has_bit(10, row.low)
}

#[tactic(auto, unfolding(crate::specs::Translate::by_row))]
fn by_row(kind: Kind, a: u32, row: Row) -> Result<u32, Fault>
    ensures { result ≡ by_row kind a row }
{
    if !has_bit(9, row.low) {
        return Err(Fault {
            miss: false,
            code: tlb_error(kind),
        });
    }
    if locked(kind, row) {
        return Err(Fault {
            miss: false,
            code: MOD,
        });
    }
    Ok(row.low / 4096 * 4096 + a % 4096)
}

fn searched(kind: Kind, a: u32, rows: [Row; 16], entry: u32) -> Result<u32, Fault>
    ensures { result ≡ by_found kind a rows (found_in (sought_of a entry) rows) }
{
    match tlb::lowest(rows, sought(a, entry)) {
        Some(i) => by_row(kind, a, tlb::read(rows, i)),
        None => Err(Fault {
            miss: true,
            code: tlb_error(kind),
        }),
    }
}

fn is_virtual(mode: Mode, a: u32) -> bool
    ensures { result ≡ is_virtual mode a }
{
    mode.vm && 0x2000_0000 <= a
}

#[tactic(auto, unfolding(crate::specs::Translate::translated_of))]
pub fn translate(mode: Mode, kind: Kind, a: u32, rows: [Row; 16], entry: u32) -> Result<u32, Fault>
    ensures { result ≡ translated_of mode kind a rows entry }
{
    if is_virtual(mode, a) {
        return searched(kind, a, rows, entry);
    }
    Ok(a)
}

fn is_twice(found: Option<Hit>) -> bool
    ensures { result ≡ is_twice found }
{
    matches!(found, Some(Hit { twice: true, .. }))
}

// Whether two entries match an address that is translated.
pub fn twice(mode: Mode, a: u32, rows: [Row; 16], entry: u32) -> bool
    ensures { result ≡ (is_virtual mode a && is_twice (found_in (sought_of a entry) rows)) }
{
    is_virtual(mode, a) && is_twice(tlb::search(rows, sought(a, entry)))
}
