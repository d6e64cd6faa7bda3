// Shifts, by the low five bits of `by`: so they serve SLL, SRL, SRA and SLLV, SRLV, SRAV.
ghost use Rattle.std.specs.Prelude.{◌≡◌};
ghost use Rattle.alu.specs.Shift.{sll_of, srl_of, sra_of};

pub fn sll(x: u32, by: u32) -> u32
    ensures { result ≡ sll_of x by }
{
    x << (by % 32)
}

pub fn srl(x: u32, by: u32) -> u32
    ensures { result ≡ srl_of x by }
{
    x >> (by % 32)
}

pub fn sra(x: u32, by: u32) -> u32
    ensures { result ≡ sra_of x by }
{
    (x.cast_signed() >> (by % 32)).cast_unsigned()
}
