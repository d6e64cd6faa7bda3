// Registers as they are read, and where the instruction after the next stands.
ghost use Rattle.std.specs.Prelude.{◌≡◌};
ghost use Rattle.state.specs.Layout.{HoldsZero};
ghost use Rattle.intend.specs.Operand.{reg_of, after_of};

// Register 0 is read where it stands, and not told apart: it holds 0, and a test for it costs every step.
pub fn reg(regs: &[u32; 32], i: u32) -> u32
    requires { HoldsZero regs.now }
    ensures { result ≡ reg_of regs.now i }
{
    let at = (i % 32) as usize;
    regs[at]
}

pub fn after(pc: u32) -> u32
    ensures { result ≡ after_of pc }
{
    std::num::wrapping_add_u32(pc, 4)
}
