// Exception entry: what becomes of CP0, and where PC goes.
ghost use Rattle.std.specs.Prelude.{◌≡◌, ◌≤◌};
ghost use Rattle.cp0.specs.Entry.{entry_hi_of, bad_v_addr_of, bd_of, cause_of, entered_of, vector_of};

use crate::registers::Cp0;
use crate::status::Status;
use word::map::has_bit;
use word::mask::overlaid;

// What an exception brings: the coprocessor for code 11, the address for codes 1 to 5, `miss` where no entry of the table matched. The bool comes last, so
// that no word of an enum that holds an exception shares its place with two parts.
#[derive(Clone, Copy)]
pub struct Exception {
    pub code: u32,
    pub coprocessor: u32,
    pub address: u32,
    pub miss: bool,
}

const COPROCESSOR_UNUSABLE: u32 = 11;

// ExcCode, BD and CE.
const ENTRY_FIELDS: u32 = 0xB000007C;

// The top 20 bits.
const PAGE: u32 = 0xFFFFF000;

// `slot` is whether the exception is in a slot, `epc` the address that the kernel is to go back to.
#[tactic(auto, unfolding(crate::specs::Entry::entered_of))]
pub fn entered(c: Cp0, e: Exception, slot: bool, epc: u32) -> Cp0
    ensures { result ≡ entered_of e slot epc c }
{
    let status = Status { word: c.status };
    let pushed = status.pushed();
    Cp0 {
        entry_hi: entry_hi(e, c.entry_hi),
        bad_vaddr: bad_vaddr(e, c.bad_vaddr),
        status: pushed.word,
        cause: cause(e, slot, c.cause),
        epc,
        ..c
    }
}

#[tactic(auto, unfolding(crate::specs::Entry::entry_hi_of))]
fn entry_hi(e: Exception, old: u32) -> u32
    ensures { result ≡ entry_hi_of e old }
{
    if matches!(e.code, 1..=3) {
        return overlaid(PAGE, old, e.address);
    }
    old
}

#[tactic(auto, unfolding(crate::specs::Entry::bad_v_addr_of))]
fn bad_vaddr(e: Exception, old: u32) -> u32
    ensures { result ≡ bad_v_addr_of e old }
{
    if matches!(e.code, 1..=5) {
        return e.address;
    }
    old
}

fn bd(slot: bool) -> u32
    ensures { (result ≡ bd_of slot) × (result ≤ 0x80000000) }
{
    if slot {
        return 0x80000000;
    }
    0
}

#[tactic(auto, unfolding(crate::specs::Entry::cause_of))]
fn cause(e: Exception, slot: bool, old: u32) -> u32
    ensures { result ≡ cause_of e slot old }
{
    let bd = bd(slot);
    let code = e.code % 32 * 4;
    if e.code == COPROCESSOR_UNUSABLE {
        return overlaid(
            ENTRY_FIELDS,
            old,
            bd + (e.coprocessor % 4 * 0x10000000 + code),
        );
    }
    overlaid(ENTRY_FIELDS, old, bd + code)
}

#[tactic(auto, unfolding(crate::specs::Entry::vector_of))]
pub fn vector(status: u32, miss: bool) -> u32
    ensures { result ≡ vector_of status miss }
{
    let bev = has_bit(22, status);
    if miss {
        if bev {
            return 0x1FC00100;
        }
        return 0x0;
    }
    if bev {
        return 0x1FC00180;
    }
    0x80
}
