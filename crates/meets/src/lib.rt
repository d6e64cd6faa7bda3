// Request L5: whether the fetch, load or store of a step meets two matches. Apart from `decide`, which each step goes through: this is asked only where the table is doubled.
#![tactic(auto)]

ghost use Rattle.std.specs.Prelude.{◌≡◌};
ghost use Rattle.isa.specs.Opcode.{decode_of};
ghost use Rattle.intend.specs.Access.{twice_of};
ghost use Rattle.decide.specs.Lent.{lent_of, Whole};
ghost use Rattle.state.specs.Layout.{HoldsZero};
ghost use Rattle.meets.specs.Meets.{access_meets_two, fetched_meets_two, meets_two_of};

use alu::sum::addiu;
use cp0::interrupt::interrupts;
use cp0::privilege::mode_of;
use cp0::registers::Cp0;
use decide::fetch::fetch_slow;
use intend::access::{load_width, store_width};
use intend::operand::reg;
use isa::decode::memory;
use isa::instr::Instr;
use reach::Fault;
use reach::access::{Access, Kind, Width};
use state::machine::Core;
use tlb::Row;

fn met(kind: Kind, width: Width, va: u32, cp0: Cp0, rows: [Row; 16]) -> bool
    ensures { result ≡ twice_of kind width cp0 rows va }
{
    let access = Access { kind, width };
    reach::meets_two(mode_of(cp0.status), access, va, rows, cp0.entry_hi)
}

fn by_instr(instr: Instr, cp0: Cp0, regs: &[u32; 32], rows: [Row; 16]) -> bool
    requires { HoldsZero regs.now }
    ensures { result ≡ access_meets_two cp0 regs.now rows instr }
{
    match instr {
        Instr::Load(op, _, base, offset) => met(
            Kind::Load,
            load_width(op),
            addiu(reg(regs, base), offset),
            cp0,
            rows,
        ),
        Instr::Store(op, _, base, offset) => met(
            Kind::Store,
            store_width(op),
            addiu(reg(regs, base), offset),
            cp0,
            rows,
        ),
        _ => false,
    }
}

// Below 0x8000_0000 no word is a load or a store.
fn by_word(word: u32, cp0: Cp0, regs: &[u32; 32], rows: [Row; 16]) -> bool
    requires { HoldsZero regs.now }
    ensures { result ≡ access_meets_two cp0 regs.now rows (decode_of word) }
{
    if word < 0x8000_0000 {
        return false;
    }
    by_instr(memory(word), cp0, regs, rows)
}

fn by_fetched(fetched: Result<u32, Fault>, cp0: Cp0, regs: &[u32; 32], rows: [Row; 16]) -> bool
    requires { HoldsZero regs.now }
    ensures { result ≡ fetched_meets_two cp0 regs.now rows fetched }
{
    match fetched {
        Ok(word) => by_word(word, cp0, regs, rows),
        Err(_) => false,
    }
}

// `core` is as the tick will leave it.
pub fn meets_two(
    core: Core,
    regs: &[u32; 32],
    rows: [Row; 16],
    execution: &[u8],
    bootstrap: &[u8],
    ram: &[u8],
) -> bool
    requires whole { Whole (lent_of execution.now bootstrap.now ram.now) }
    requires holds_zero { HoldsZero regs.now }
    ensures { result ≡ meets_two_of core regs.now rows (lent_of execution.now bootstrap.now ram.now) }
{
    let cp0 = core.cp0;
    if interrupts(cp0.status, cp0.cause) {
        return false;
    }
    if met(Kind::Fetch, Width::Four, core.pc, cp0, rows) {
        return true;
    }
    by_fetched(
        fetch_slow(core, rows, execution, bootstrap, ram),
        cp0,
        regs,
        rows,
    )
}
