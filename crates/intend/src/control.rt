// The words of COP0. Whether CP0 may be used is tested before anything else.
ghost use Rattle.std.specs.Prelude.{◌≡◌};
ghost use Rattle.state.specs.Layout.{HoldsZero};
ghost use Rattle.intend.specs.Control.{written_word, entry_of, popped_word, function_of, control_of};

use crate::codes::{CPU, RI};
use crate::intent::Intent;
use crate::operand::reg;
use cp0::privilege::usable;
use cp0::registers;
use cp0::registers::Cp0;
use cp0::status::Status;
use isa::instr::{Control, ControlRegister};
use tlb::Row;

// MTC0: the word that the register then holds.
fn written(cp0: Cp0, register: ControlRegister, word: u32) -> u32
    ensures { result ≡ written_word register word cp0 }
{
    registers::read(registers::write(cp0, register, word), register)
}

fn entry(cp0: Cp0) -> Row
    ensures { result ≡ entry_of cp0 }
{
    Row {
        high: cp0.entry_hi,
        low: cp0.entry_lo,
    }
}

// RFE.
fn popped(cp0: Cp0) -> u32
    ensures { result ≡ popped_word cp0 }
{
    let status = Status { word: cp0.status };
    let after = status.popped();
    after.word
}

fn function(control: Control, cp0: Cp0, regs: &[u32; 32], rows: [Row; 16]) -> Intent
    requires { HoldsZero regs.now }
    ensures { result ≡ function_of cp0 regs.now rows control }
{
    match control {
        Control::Undefined => Intent::Trap(RI, 0),
        Control::Mfc0(rt, r) => Intent::Write(rt, registers::read(cp0, r)),
        Control::Mtc0(rt, r) => Intent::SetControl(r, written(cp0, r, reg(regs, rt))),
        Control::Tlbr => Intent::SetEntry(tlb::read(rows, tlb::index(cp0.index))),
        Control::Tlbwi => Intent::SetRow((tlb::index(cp0.index) % 16) as u32, entry(cp0)),
        Control::Tlbwr => Intent::SetRow((tlb::index(cp0.random) % 16) as u32, entry(cp0)),
        Control::Tlbp => Intent::SetControl(ControlRegister::Index, tlb::probe(rows, cp0.entry_hi)),
        Control::Rfe => Intent::SetControl(ControlRegister::Status, popped(cp0)),
    }
}

pub fn control(control: Control, cp0: Cp0, regs: &[u32; 32], rows: [Row; 16]) -> Intent
    requires { HoldsZero regs.now }
    ensures { result ≡ control_of cp0 regs.now rows control }
{
    if usable(cp0.status) {
        return function(control, cp0, regs, rows);
    }
    Intent::Trap(CPU, 0)
}
