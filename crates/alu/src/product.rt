// MULT and MULTU, by one 64-bit product.
ghost use Rattle.std.specs.Prelude.{◌≡◌, ◌*◌};
ghost use Rattle.alu.specs.HiLo.{mult_of, multu_of, split};

#[derive(Clone, Copy)]
pub struct HiLo {
    pub hi: u32,
    pub lo: u32,
}

pub fn mult(x: u32, y: u32) -> HiLo
    ensures { result ≡ mult_of x y }
{
    let product = i64::from(x.cast_signed()) * i64::from(y.cast_signed());
    split_word(product.cast_unsigned())
}

pub fn multu(x: u32, y: u32) -> HiLo
    ensures { result ≡ multu_of x y }
{
    split_word(u64::from(x) * u64::from(y))
}

fn split_word(p: u64) -> HiLo
    ensures { result ≡ split p }
{
    HiLo {
        hi: (p >> 32) as u32,
        lo: (p % 0x1_0000_0000) as u32,
    }
}
