// ADD and SUB, which are nothing where the sum overflows, ADDU and SUBU without, and the comparisons. Every immediate here is extended by its sign.
ghost use Rattle.std.specs.Prelude.{◌≡◌};
ghost use Rattle.alu.specs.Sum.{add_of, sub_of, addi_of, addu_of, subu_of, addiu_of, slt_of, sltu_of, slti_of, sltiu_of};

use crate::extend::extend16;

pub fn add(x: u32, y: u32) -> Option<u32>
    ensures { result ≡ add_of x y }
{
    let z = x.cast_signed().checked_add(y.cast_signed())?;
    Some(z.cast_unsigned())
}

pub fn sub(x: u32, y: u32) -> Option<u32>
    ensures { result ≡ sub_of x y }
{
    let z = x.cast_signed().checked_sub(y.cast_signed())?;
    Some(z.cast_unsigned())
}

pub fn addi(x: u32, imm: u32) -> Option<u32>
    ensures { result ≡ addi_of x imm }
{
    add(x, extend16(imm))
}

pub fn addu(x: u32, y: u32) -> u32
    ensures { result ≡ addu_of x y }
{
    x.wrapping_add(y)
}

pub fn subu(x: u32, y: u32) -> u32
    ensures { result ≡ subu_of x y }
{
    x.wrapping_sub(y)
}

pub fn addiu(x: u32, imm: u32) -> u32
    ensures { result ≡ addiu_of x imm }
{
    addu(x, extend16(imm))
}

pub fn slt(x: u32, y: u32) -> u32
    ensures { result ≡ slt_of x y }
{
    u32::from(x.cast_signed() < y.cast_signed())
}

pub fn sltu(x: u32, y: u32) -> u32
    ensures { result ≡ sltu_of x y }
{
    u32::from(x < y)
}

pub fn slti(x: u32, imm: u32) -> u32
    ensures { result ≡ slti_of x imm }
{
    slt(x, extend16(imm))
}

pub fn sltiu(x: u32, imm: u32) -> u32
    ensures { result ≡ sltiu_of x imm }
{
    let wide = extend16(imm);
    sltu(x, wide)
}
