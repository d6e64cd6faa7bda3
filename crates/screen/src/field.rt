// Fields of words.
ghost use Rattle.std.specs.Prelude.{◌<◌};

use phrase::{Decimal, YesNo};

// What is left of a word behind a shift and under a mask.
pub fn field(word: u32, shift: u32, mask: u32) -> Decimal
    requires { shift < 32 }
{
    Decimal((word >> shift & mask) as u64)
}

// Eight bits of a word behind others.
pub fn byte(word: u32, shift: u32) -> u8
    requires { shift < 32 }
{
    (word >> shift & 0xFF) as u8
}

pub fn is_set(word: u32, mask: u32) -> YesNo {
    YesNo(word & mask != 0)
}
