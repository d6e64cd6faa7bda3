// MULT, MULTU, DIV and DIVU, and the moves from and to HI and LO.
ghost use Rattle.std.specs.Prelude.{◌≡◌};
ghost use Rattle.state.specs.Layout.{HoldsZero};
ghost use Rattle.intend.specs.Operand.{reg_of};
ghost use Rattle.intend.specs.HiLo.{kept_of, product_of, half_of, with_half, hi_lo_of};

use crate::intent::Intent;
use crate::operand::reg;
use alu::product::HiLo;
use alu::{product, quotient};
use isa::instr;
use isa::instr::ProductOp;
use state::machine::Core;

fn kept(core: Core) -> HiLo
    ensures { result ≡ kept_of core }
{
    HiLo {
        hi: core.hi,
        lo: core.lo,
    }
}

fn multiplied(op: ProductOp, x: u32, y: u32, kept: HiLo) -> HiLo
    ensures { result ≡ product_of op x y kept }
{
    match op {
        ProductOp::Mult => product::mult(x, y),
        ProductOp::Multu => product::multu(x, y),
        ProductOp::Div => quotient::div(x, y, kept),
        ProductOp::Divu => quotient::divu(x, y, kept),
    }
}

fn half(which: instr::HiLo, kept: HiLo) -> u32
    ensures { result ≡ half_of which kept }
{
    match which {
        instr::HiLo::Hi => kept.hi,
        instr::HiLo::Lo => kept.lo,
    }
}

fn with_half(which: instr::HiLo, x: u32, kept: HiLo) -> HiLo
    ensures { result ≡ with_half which x kept }
{
    match which {
        instr::HiLo::Hi => HiLo { hi: x, lo: kept.lo },
        instr::HiLo::Lo => HiLo { hi: kept.hi, lo: x },
    }
}

fn both(words: HiLo) -> Intent
    ensures { result ≡ hi_lo_of words }
{
    Intent::HiLo(words.hi, words.lo)
}

pub fn product(op: ProductOp, s: u32, t: u32, core: Core, regs: &[u32; 32]) -> Intent
    requires { HoldsZero regs.now }
    ensures { result ≡ hi_lo_of (product_of op (reg_of regs.now s) (reg_of regs.now t) (kept_of core)) }
{
    both(multiplied(op, reg(regs, s), reg(regs, t), kept(core)))
}

pub fn moved_from(which: instr::HiLo, d: u32, core: Core) -> Intent
    ensures { result ≡ Intent.Write d (half_of which (kept_of core)) }
{
    Intent::Write(d, half(which, kept(core)))
}

pub fn moved_to(which: instr::HiLo, s: u32, core: Core, regs: &[u32; 32]) -> Intent
    requires { HoldsZero regs.now }
    ensures { result ≡ hi_lo_of (with_half which (reg_of regs.now s) (kept_of core)) }
{
    both(with_half(which, reg(regs, s), kept(core)))
}
