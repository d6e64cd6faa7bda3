// What a record keeps of the effect: the one register, row or RAM word that it overwrites.
ghost use Rattle.std.specs.Prelude.{◌≡◌, ◌<◌, length, slice_index};
ghost use Rattle.decide.specs.Range.{Within};
ghost use Rattle.step.specs.Parts.{old_row, saved_with};

use decide::effect::Effect;
use record::Saved;
use tlb::Row;

// The row that the effect overwrites. Only TLBWI's and TLBWR's does, so that the table is copied for no other.
pub fn old_row(effect: Effect, rows: [Row; 16]) -> Row
    ensures { result ≡ old_row effect rows }
{
    match effect {
        Effect::TlbRow(i, _, _) => tlb::read(rows, i as usize),
        _ => Row { high: 0, low: 0 },
    }
}

// A function of its own, so that a register is read only in the arm that needs it.

fn register_at(regs: &[u32; 32], d: u32) -> u32
    requires { d < 32 }
    ensures { result ≡ slice_index regs.now d }
{
    let at = d as usize;
    regs[at]
}

// `distance` goes into the record of a RAM word alone, and only 16 bits of it: steps on hand are never further apart.
pub fn saved(effect: Effect, regs: &[u32; 32], old: Row, ram: &[u8], distance: u64) -> Saved
    requires { Within (length ram.now) 16 effect }
    ensures { result ≡ saved_with distance effect regs.now old ram.now }
{
    match effect {
        Effect::Register(d, _) | Effect::DeviceLoad(d, _) => {
            Saved::Register(d, register_at(regs, d))
        }
        Effect::TlbRow(i, _, _) => Saved::TlbRow(i, old),
        Effect::Ram(at, _) => {
            let short = (distance % 65536) as u32;
            Saved::RamWord(at, memory::load_word(ram, at as usize), short)
        }
        _ => Saved::Nothing,
    }
}
