// Bytes and numbers laid into a buffer from a place on, as many bytes as fit. Each function answers the place behind what it laid.
ghost use Rattle.std.specs.Prelude.{◌≡◌, [], ◌∷◌, ◌≤◌};
ghost use Rattle.text.specs.Laid.{Laid};
ghost use Rattle.text.specs.Spelt.{face_of, low_of, decimal_of, grouped_of, signed_of, hex_of};

pub fn put(out: &mut [u8], at: usize, bytes: &[u8]) -> usize
    ensures { Laid out.old at bytes.now out.new result }
{
    let mut next = at;
    for &b in bytes {
        next = put_byte(out, next, b);
    }
    next
}

// In decimal, with no leading zeros.
pub fn put_decimal(out: &mut [u8], at: usize, value: u64) -> usize
    ensures { Laid out.old at (decimal_of value) out.new result }
{
    if value < 10 {
        return put_digit(out, at, value);
    }
    let next = put_decimal(out, at, value / 10);
    put_digit(out, next, value % 10)
}

// In decimal, with a comma before each three digits that follow others.
pub fn put_grouped(out: &mut [u8], at: usize, value: u64) -> usize
    ensures { Laid out.old at (grouped_of value) out.new result }
{
    if value < 1000 {
        return put_decimal(out, at, value);
    }
    let next = put_grouped(out, at, value / 1000);
    let next = put(out, next, b",");
    put_low(out, next, value, 10, 3)
}

// A word as a signed decimal.
pub fn put_signed(out: &mut [u8], at: usize, value: u32) -> usize
    ensures { Laid out.old at (signed_of value) out.new result }
{
    let wide = value as u64;
    if wide < 0x8000_0000 {
        return put_decimal(out, at, wide);
    }
    let next = put(out, at, b"-");
    put_decimal(out, next, 0x1_0000_0000 - wide)
}

// `0x` and the low digits of a value, 1 to 16 of them.
pub fn put_hex(out: &mut [u8], at: usize, value: u64, digits: usize) -> usize
    ensures { Laid out.old at (hex_of digits value) out.new result }
{
    let next = put(out, at, b"0x");
    put_low(out, next, value, 16, digits.clamp(1, 16))
}

// The `count` low digits of a value.
fn put_low(out: &mut [u8], at: usize, value: u64, base: u64, count: usize) -> usize
    requires { 1 ≤ base }
    ensures { Laid out.old at (low_of base count value) out.new result }
{
    if count == 0 {
        return at;
    }
    let next = put_low(out, at, value / base, base, count - 1);
    put_digit(out, next, value % base)
}

// A digit, in lower case.
pub fn put_digit(out: &mut [u8], at: usize, digit: u64) -> usize
    ensures { Laid out.old at (face_of digit ∷ []) out.new result }
{
    put_byte(out, at, face(digit))
}

#[tactic(auto, unfolding(crate::specs::Spelt::face_of))]
fn face(digit: u64) -> u8
    ensures { result ≡ face_of digit }
{
    if digit < 10 {
        return 48 + digit as u8;
    }
    87 + (digit % 16) as u8
}

pub fn put_byte(out: &mut [u8], at: usize, byte: u8) -> usize
    ensures { Laid out.old at (byte ∷ []) out.new result }
{
    if out.len() <= at {
        return at;
    }
    out[at] = byte;
    at + 1
}
