// Branches and jumps: the link, written taken or not, and the next PC.
ghost use Rattle.std.specs.Prelude.{◌≡◌};
ghost use Rattle.alu.specs.Jumps.{link_of};
ghost use Rattle.state.specs.Layout.{HoldsZero};
ghost use Rattle.intend.specs.Operand.{reg_of};
ghost use Rattle.intend.specs.Branch.{compare_of, sign_of, link_register, taken_of, jumps_of, compares_of, signs_of};

use crate::intent::Intent;
use crate::operand::{after, reg};
use alu::{condition, jumps};
use isa::instr::{CompareOp, JumpOp, SignOp};
use state::machine::Core;

fn compare(op: CompareOp, x: u32, y: u32) -> bool
    ensures { result ≡ compare_of op x y }
{
    match op {
        CompareOp::Beq => condition::eq(x, y),
        CompareOp::Bne => condition::ne(x, y),
    }
}

fn sign(op: SignOp, x: u32) -> bool
    ensures { result ≡ sign_of op x }
{
    match op {
        SignOp::Bltz => condition::ltz(x),
        SignOp::Bgez => condition::gez(x),
        SignOp::Bltzal => condition::ltz(x),
        SignOp::Bgezal => condition::gez(x),
        SignOp::Blez => condition::lez(x),
        SignOp::Bgtz => condition::gtz(x),
    }
}

fn link_register(op: SignOp) -> u32
    ensures { result ≡ link_register op }
{
    match op {
        SignOp::Bltz => 0,
        SignOp::Bgez => 0,
        SignOp::Bltzal => 31,
        SignOp::Bgezal => 31,
        SignOp::Blez => 0,
        SignOp::Bgtz => 0,
    }
}

fn taken(core: Core, test: bool, offset: u32) -> u32
    ensures { result ≡ taken_of core test offset }
{
    if test {
        return jumps::branch(core.pc, offset);
    }
    after(core.next_pc)
}

pub fn jumps(op: JumpOp, core: Core, target: u32) -> Intent
    ensures { result ≡ jumps_of op core target }
{
    let to = jumps::jump(core.pc, target);
    match op {
        JumpOp::J => Intent::Branch(0, 0, to),
        JumpOp::Jal => Intent::Branch(31, jumps::link(core.pc), to),
    }
}

// JALR: the link goes to rd.
pub fn jump_link(d: u32, s: u32, core: Core, regs: &[u32; 32]) -> Intent
    requires { HoldsZero regs.now }
    ensures { result ≡ Intent.Branch d (link_of core.pc) (reg_of regs.now s) }
{
    let to = reg(regs, s);
    Intent::Branch(d, jumps::link(core.pc), to)
}

pub fn compares(op: CompareOp, s: u32, t: u32, offset: u32, core: Core, regs: &[u32; 32]) -> Intent
    requires { HoldsZero regs.now }
    ensures { result ≡ compares_of op core (reg_of regs.now s) (reg_of regs.now t) offset }
{
    let test = compare(op, reg(regs, s), reg(regs, t));
    Intent::Branch(0, 0, taken(core, test, offset))
}

pub fn signs(op: SignOp, s: u32, offset: u32, core: Core, regs: &[u32; 32]) -> Intent
    requires { HoldsZero regs.now }
    ensures { result ≡ signs_of op core (reg_of regs.now s) offset }
{
    let next = taken(core, sign(op, reg(regs, s)), offset);
    Intent::Branch(link_register(op), jumps::link(core.pc), next)
}
