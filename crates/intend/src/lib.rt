// What an instruction asks for: sources are read first, so every answer is made of what they held before it.
#![tactic(auto)]

ghost use Rattle.std.specs.Prelude.{◌≡◌};
ghost use Rattle.pages.specs.Pages.{Known};
ghost use Rattle.state.specs.Layout.{HoldsZero};
ghost use Rattle.intend.specs.Intend.{intend_of};

use crate::access::{load, store};
use crate::codes::{BP, CPU, RI, SYS};
use crate::control::control;
use crate::intent::Intent;
use crate::operand::reg;
use alu::logic::lui;
use board::places::Sizes;
use isa::instr::Instr;
use pages::Pages;
use state::machine::Core;
use tlb::Row;

pub mod access; // loads and stores: the address and its answer
mod branch; // branches and jumps
pub mod codes; // the exceptions' numbers
mod control; // COP0
mod hi_lo; // MULT to DIVU, and moves to and from HI and LO
pub mod intent; // what an instruction asks for
pub mod operand; // registers as they are read, and the next PC
mod operate; // what is computed from registers and immediates

pub fn intend(
    instr: Instr,
    core: Core,
    regs: &[u32; 32],
    rows: [Row; 16],
    pages: &Pages,
    sizes: Sizes,
) -> Intent
    requires holds_zero { HoldsZero regs.now }
    requires known { Known pages.now rows sizes.ram }
    ensures { result ≡ intend_of core regs.now rows sizes instr }
{
    let cp0 = core.cp0;
    match instr {
        Instr::Reserved => Intent::Trap(RI, 0),
        Instr::Unusable(z) => Intent::Trap(CPU, z),
        Instr::Syscall => Intent::Trap(SYS, 0),
        Instr::Break => Intent::Trap(BP, 0),
        Instr::Shift(op, rd, rt, by) => operate::shift(op, rd, rt, by, regs),
        Instr::ShiftBy(op, rd, rt, rs) => operate::shift_by(op, rd, rt, rs, regs),
        Instr::Register(op, rd, rs, rt) => operate::register(op, rd, rs, rt, regs),
        Instr::Product(op, rs, rt) => hi_lo::product(op, rs, rt, core, regs),
        Instr::MoveFrom(half, rd) => hi_lo::moved_from(half, rd, core),
        Instr::MoveTo(half, rs) => hi_lo::moved_to(half, rs, core, regs),
        Instr::JumpRegister(rs) => Intent::Branch(0, 0, reg(regs, rs)),
        Instr::JumpLinkRegister(rd, rs) => branch::jump_link(rd, rs, core, regs),
        Instr::Jump(op, target) => branch::jumps(op, core, target),
        Instr::Compare(op, rs, rt, offset) => branch::compares(op, rs, rt, offset, core, regs),
        Instr::Sign(op, rs, offset) => branch::signs(op, rs, offset, core, regs),
        Instr::Immediate(op, rt, rs, imm) => operate::immediate(op, rt, rs, imm, regs),
        Instr::LoadUpper(rt, imm) => Intent::Write(rt, lui(imm)),
        Instr::Load(op, rt, base, offset) => load(
            op, rt, base, offset, cp0, regs, rows, pages, sizes,
        ),
        Instr::Store(op, rt, base, offset) => store(
            op, rt, base, offset, cp0, regs, rows, pages, sizes,
        ),
        Instr::Control(c) => control(c, cp0, regs, rows),
    }
}
