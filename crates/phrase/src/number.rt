// Numbers as they are shown: laid by the functions of crate `text`, and padded where a width is asked for.
ghost use Rattle.std.specs.Prelude.{Some, take, cond, eqb, ltb, ◌^◌, ◌++◌, codes};
ghost use Rattle.std.specs.Fmt.{WritesOnOk};
ghost use Rattle.text.specs.Spelt.{decimal_of, grouped_of, signed_of, hex_of};

use std::fmt;
use text::{put_decimal, put_grouped, put_hex, put_signed};

// Room for any number in decimal: at most seven groups of three digits, each with a comma.
const LONGEST: usize = 28;

type Digits = [u8; LONGEST];

// The first bytes of what was laid.
fn pad<W: fmt::Write>(f: &mut fmt::Formatter<W>, digits: Digits, len: usize) -> fmt::Result
    ensures { WritesOnOk W.write_str_gives f.old result (take len digits) f.new }
{
    let shown = digits.get(..len).ok_or(fmt::Error)?;
    let shown = str::from_utf8(shown).map_err(|_| fmt::Error)?;
    f.pad(shown)
}

// In decimal.
#[derive(Clone, Copy)]
pub struct Decimal(pub u64);

impl fmt::Display for Decimal {
    ghost output = { λ x. Some (decimal_of x.0) };

    fn fmt<W: fmt::Write>(&self, f: &mut fmt::Formatter<W>) -> fmt::Result {
        let mut digits = [0; LONGEST];
        let len = put_decimal(&mut digits, 0, self.0);
        pad(f, digits, len)
    }
}

// In decimal, with commas.
#[derive(Clone, Copy)]
pub struct Grouped(pub u64);

impl fmt::Display for Grouped {
    ghost output = { λ x. Some (grouped_of x.0) };

    fn fmt<W: fmt::Write>(&self, f: &mut fmt::Formatter<W>) -> fmt::Result {
        let mut digits = [0; LONGEST];
        let len = put_grouped(&mut digits, 0, self.0);
        pad(f, digits, len)
    }
}

// `1 step`, `2 steps`.
#[derive(Clone, Copy)]
pub struct Steps(pub u64);

impl fmt::Display for Steps {
    ghost output = { λ x. Some (grouped_of x.0 ++ cond (eqb x.0 1) (codes " step") (codes " steps")) };

    fn fmt<W: fmt::Write>(&self, f: &mut fmt::Formatter<W>) -> fmt::Result {
        let unit = if self.0 == 1 { "step" } else { "steps" };
        write!(f, "{} {unit}", Grouped(self.0))
    }
}

// A word as a signed number.
#[derive(Clone, Copy)]
pub struct Signed(pub u32);

impl fmt::Display for Signed {
    ghost output = { λ x. Some (signed_of x.0) };

    fn fmt<W: fmt::Write>(&self, f: &mut fmt::Formatter<W>) -> fmt::Result {
        let mut digits = [0; LONGEST];
        let len = put_signed(&mut digits, 0, self.0);
        pad(f, digits, len)
    }
}

fn hex<W: fmt::Write>(f: &mut fmt::Formatter<W>, value: u64, count: usize) -> fmt::Result
    ensures { WritesOnOk W.write_str_gives f.old result (hex_of count value) f.new }
{
    let mut digits = [0; LONGEST];
    let len = put_hex(&mut digits, 0, value, count);
    pad(f, digits, len)
}

// `0x` and eight digits.
#[derive(Clone, Copy)]
pub struct Word(pub u32);

impl fmt::Display for Word {
    ghost output = { λ x. Some (hex_of 8 x.0) };

    fn fmt<W: fmt::Write>(&self, f: &mut fmt::Formatter<W>) -> fmt::Result {
        hex(f, self.0 as u64, 8)
    }
}

// `0x` and four digits.
#[derive(Clone, Copy)]
pub struct Half(pub u16);

impl fmt::Display for Half {
    ghost output = { λ x. Some (hex_of 4 x.0) };

    fn fmt<W: fmt::Write>(&self, f: &mut fmt::Formatter<W>) -> fmt::Result {
        hex(f, self.0 as u64, 4)
    }
}

// `0x` and two digits.
#[derive(Clone, Copy)]
pub struct Byte(pub u8);

impl fmt::Display for Byte {
    ghost output = { λ x. Some (hex_of 2 x.0) };

    fn fmt<W: fmt::Write>(&self, f: &mut fmt::Formatter<W>) -> fmt::Result {
        hex(f, self.0 as u64, 2)
    }
}

// An address has eight digits if 32 bits hold it, and else sixteen.
#[derive(Clone, Copy)]
pub struct Address(pub u64);

impl fmt::Display for Address {
    ghost output = { λ x. Some (hex_of (cond (ltb x.0 (2 ^ 32)) 8 16) x.0) };

    fn fmt<W: fmt::Write>(&self, f: &mut fmt::Formatter<W>) -> fmt::Result {
        let count = if self.0 <= u32::MAX as u64 { 8 } else { 16 };
        hex(f, self.0, count)
    }
}
