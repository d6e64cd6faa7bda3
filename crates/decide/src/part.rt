// Bytes and halves of the word around a place: what a load takes out of it, and what a store makes of it.
ghost use Rattle.std.specs.Prelude.{◌≡◌};
ghost use Rattle.decide.specs.Part.{from_place, load_part, with_bytes, store_part};

use alu::{extend, merge};
use isa::instr::{LoadOp, StoreOp};

fn from_place(word: u32, at: u32) -> u32
    ensures { result ≡ from_place word at }
{
    word >> (at % 4 * 8)
}

pub fn load_part(op: LoadOp, old: u32, word: u32, at: u32) -> u32
    ensures { result ≡ load_part op old word at }
{
    match op {
        LoadOp::Lb => extend::extend8(from_place(word, at)),
        LoadOp::Lh => extend::extend16(from_place(word, at)),
        LoadOp::Lwl => merge::lwl(old, word, at),
        LoadOp::Lw => word,
        LoadOp::Lbu => extend::zero8(from_place(word, at)),
        LoadOp::Lhu => extend::zero16(from_place(word, at)),
        LoadOp::Lwr => merge::lwr(old, word, at),
    }
}

fn with_byte(word: u32, at: u32, x: u32) -> u32
    ensures { result ≡ with_bytes 1 word at x }
{
    let low = x % 0x100;
    match at % 4 {
        0 => word / 0x100 * 0x100 + low,
        1 => word / 0x1_0000 * 0x1_0000 + low * 0x100 + word % 0x100,
        2 => word / 0x100_0000 * 0x100_0000 + low * 0x1_0000 + word % 0x1_0000,
        _ => low * 0x100_0000 + word % 0x100_0000,
    }
}

fn with_half(word: u32, at: u32, x: u32) -> u32
    ensures { result ≡ with_bytes 2 word at x }
{
    let low = x % 0x1_0000;
    if at % 4 < 2 {
        return word / 0x1_0000 * 0x1_0000 + low;
    }
    low * 0x1_0000 + word % 0x1_0000
}

pub fn store_part(op: StoreOp, x: u32, word: u32, at: u32) -> u32
    ensures { result ≡ store_part op x word at }
{
    match op {
        StoreOp::Sb => with_byte(word, at, x),
        StoreOp::Sh => with_half(word, at, x),
        StoreOp::Swl => merge::swl(x, word, at),
        StoreOp::Sw => x,
        StoreOp::Swr => merge::swr(x, word, at),
    }
}
