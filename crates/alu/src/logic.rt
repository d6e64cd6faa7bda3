// The logical instructions, bit by bit. Their immediates get zeros on top, unlike those of the sums.
ghost use Rattle.std.specs.Prelude.{◌≡◌};
ghost use Rattle.alu.specs.Logic.{and_of, or_of, xor_of, nor_of, andi_of, ori_of, xori_of, lui_of};

pub fn and(x: u32, y: u32) -> u32
    ensures { result ≡ and_of x y }
{
    x & y
}

pub fn or(x: u32, y: u32) -> u32
    ensures { result ≡ or_of x y }
{
    x | y
}

pub fn xor(x: u32, y: u32) -> u32
    ensures { result ≡ xor_of x y }
{
    x ^ y
}

pub fn nor(x: u32, y: u32) -> u32
    ensures { result ≡ nor_of x y }
{
    !(x | y)
}

pub fn andi(x: u32, imm: u32) -> u32
    ensures { result ≡ andi_of x imm }
{
    x & (imm % 0x1_0000)
}

pub fn ori(x: u32, imm: u32) -> u32
    ensures { result ≡ ori_of x imm }
{
    x | (imm % 0x1_0000)
}

pub fn xori(x: u32, imm: u32) -> u32
    ensures { result ≡ xori_of x imm }
{
    x ^ (imm % 0x1_0000)
}

pub fn lui(imm: u32) -> u32
    ensures { result ≡ lui_of imm }
{
    imm % 0x1_0000 * 0x1_0000
}
