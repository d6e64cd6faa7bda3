// Where branches and jumps go, and the link: each from the instruction's own address `pc`, also in a slot.
ghost use Rattle.std.specs.Prelude.{◌≡◌};
ghost use Rattle.alu.specs.Jumps.{branch_of, jump_of, link_of};

use crate::extend::extend16;

pub fn branch(pc: u32, offset: u32) -> u32
    ensures { result ≡ branch_of pc offset }
{
    let next = pc.wrapping_add(4);
    next.wrapping_add(extend16(offset) % 0x4000_0000 * 4)
}

pub fn jump(pc: u32, index: u32) -> u32
    ensures { result ≡ jump_of pc index }
{
    let next = pc.wrapping_add(4);
    next / 0x1000_0000 * 0x1000_0000 + index % 0x400_0000 * 4
}

pub fn link(pc: u32) -> u32
    ensures { result ≡ link_of pc }
{
    pc.wrapping_add(8)
}
