// A narrower number to a word: by its sign (LB, LH, immediates), or with zeros (LBU, LHU).
ghost use Rattle.std.specs.Prelude.{◌≡◌, ◌%◌, ◌^◌};
ghost use Rattle.word.specs.Number.{extended};

pub fn extend8(byte: u32) -> u32
    ensures { result ≡ extended 8 byte }
{
    i32::from(((byte % 0x100) as u8).cast_signed()).cast_unsigned()
}

pub fn extend16(half: u32) -> u32
    ensures { result ≡ extended 16 half }
{
    i32::from(((half % 0x1_0000) as u16).cast_signed()).cast_unsigned()
}

pub fn zero8(byte: u32) -> u32
    ensures { result ≡ byte % 2 ^ 8 }
{
    byte % 0x100
}

pub fn zero16(half: u32) -> u32
    ensures { result ≡ half % 2 ^ 16 }
{
    half % 0x1_0000
}
