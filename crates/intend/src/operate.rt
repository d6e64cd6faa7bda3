// What is computed from registers and immediates, and written to a register.
ghost use Rattle.std.specs.Prelude.{◌≡◌};
ghost use Rattle.state.specs.Layout.{HoldsZero};
ghost use Rattle.intend.specs.Operand.{reg_of};
ghost use Rattle.intend.specs.Operate.{shift_of, register_of, immediate_of, summed_of};

use crate::codes::OV;
use crate::intent::Intent;
use crate::operand::reg;
use alu::{logic, shift, sum};
use isa::instr::{ImmediateOp, RegisterOp, ShiftOp};

fn shifted(op: ShiftOp, x: u32, by: u32) -> u32
    ensures { result ≡ shift_of op x by }
{
    match op {
        ShiftOp::Sll => shift::sll(x, by),
        ShiftOp::Srl => shift::srl(x, by),
        ShiftOp::Sra => shift::sra(x, by),
    }
}

fn by_register(op: RegisterOp, x: u32, y: u32) -> Option<u32>
    ensures { result ≡ register_of op x y }
{
    match op {
        RegisterOp::Add => sum::add(x, y),
        RegisterOp::Addu => Some(sum::addu(x, y)),
        RegisterOp::Sub => sum::sub(x, y),
        RegisterOp::Subu => Some(sum::subu(x, y)),
        RegisterOp::And => Some(logic::and(x, y)),
        RegisterOp::Or => Some(logic::or(x, y)),
        RegisterOp::Xor => Some(logic::xor(x, y)),
        RegisterOp::Nor => Some(logic::nor(x, y)),
        RegisterOp::Slt => Some(sum::slt(x, y)),
        RegisterOp::Sltu => Some(sum::sltu(x, y)),
    }
}

fn by_immediate(op: ImmediateOp, x: u32, imm: u32) -> Option<u32>
    ensures { result ≡ immediate_of op x imm }
{
    match op {
        ImmediateOp::Addi => sum::addi(x, imm),
        ImmediateOp::Addiu => Some(sum::addiu(x, imm)),
        ImmediateOp::Slti => Some(sum::slti(x, imm)),
        ImmediateOp::Sltiu => Some(sum::sltiu(x, imm)),
        ImmediateOp::Andi => Some(logic::andi(x, imm)),
        ImmediateOp::Ori => Some(logic::ori(x, imm)),
        ImmediateOp::Xori => Some(logic::xori(x, imm)),
    }
}

fn summed(sum: Option<u32>, d: u32) -> Intent
    ensures { result ≡ summed_of sum d }
{
    match sum {
        Some(v) => Intent::Write(d, v),
        None => Intent::Trap(OV, 0),
    }
}

pub fn shift(op: ShiftOp, d: u32, t: u32, by: u32, regs: &[u32; 32]) -> Intent
    requires { HoldsZero regs.now }
    ensures { result ≡ Intent.Write d (shift_of op (reg_of regs.now t) by) }
{
    Intent::Write(d, shifted(op, reg(regs, t), by))
}

pub fn shift_by(op: ShiftOp, d: u32, t: u32, s: u32, regs: &[u32; 32]) -> Intent
    requires { HoldsZero regs.now }
    ensures { result ≡ Intent.Write d (shift_of op (reg_of regs.now t) (reg_of regs.now s)) }
{
    Intent::Write(d, shifted(op, reg(regs, t), reg(regs, s)))
}

pub fn register(op: RegisterOp, d: u32, s: u32, t: u32, regs: &[u32; 32]) -> Intent
    requires { HoldsZero regs.now }
    ensures { result ≡ summed_of (register_of op (reg_of regs.now s) (reg_of regs.now t)) d }
{
    summed(by_register(op, reg(regs, s), reg(regs, t)), d)
}

pub fn immediate(op: ImmediateOp, t: u32, s: u32, imm: u32, regs: &[u32; 32]) -> Intent
    requires { HoldsZero regs.now }
    ensures { result ≡ summed_of (immediate_of op (reg_of regs.now s) imm) t }
{
    summed(by_immediate(op, reg(regs, s), imm), t)
}
