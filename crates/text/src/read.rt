// The number at a place of a line.
ghost use Rattle.std.specs.Prelude.{◌≡◌, ◌<◌, ◌≤◌, length};
ghost use Rattle.std.specs.Option.{SomeIff};
ghost use Rattle.text.specs.Digit.{digit_of, is_digit, run_of, value_of};
ghost use Rattle.text.specs.Number.{held_of, digits_at, is_hex, decimal_at, number_of};

use crate::found::{NoNumber, Number};

// `0x` or `0X` and hex digits, or decimal digits.
pub fn number(line: &[u8], from: usize) -> Result<Number, NoNumber>
    ensures { result ≡ number_of line.now from }
{
    if is_hex(line, from) {
        return digits(line, from, from + 2, 16);
    }
    decimal(line, from)
}

// Decimal digits alone.
pub fn decimal(line: &[u8], from: usize) -> Result<Number, NoNumber>
    ensures { result ≡ decimal_at line.now from }
{
    digits(line, from, from, 10)
}

// Whether `0x` or `0X` stands at a place.
#[tactic(auto, unfolding(crate::specs::Number::is_hex))]
fn is_hex(line: &[u8], from: usize) -> bool
    ensures { result ≡ is_hex line.now from }
{
    matches!(line.get(from..), Some([b'0', b'x' | b'X', ..]))
}

// The number of the digits at `from`, where it begins at `first`.
fn digits(line: &[u8], first: usize, from: usize, base: u64) -> Result<Number, NoNumber>
    requires at_least_1 { 1 ≤ base }
    requires at_most_16 { base ≤ 16 }
    ensures { result ≡ digits_at first from base line.now }
{
    let Some(rest) = line.get(from..) else {
        return Err(NoNumber::Nothing(from));
    };
    let count = run(rest, base);
    if count == 0 {
        return Err(NoNumber::Nothing(from));
    }
    let value = sum(&rest[..count], base).ok_or(NoNumber::TooLarge(first))?;
    Ok(Number {
        value,
        to: from + count,
    })
}

// How many digits a text begins with.
fn run(rest: &[u8], base: u64) -> usize
    requires { base ≤ 16 }
    ensures { result ≡ run_of base rest.now }
{
    rest.iter().take_while(|&&b| is_digit(b, base)).count()
}

// What digits write, where 64 bits hold it.
fn sum(digits: &[u8], base: u64) -> Option<u64>
    requires at_least_1 { 1 ≤ base }
    requires at_most_16 { base ≤ 16 }
    requires all_digits { run_of base digits.now ≡ length digits.now }
    ensures { result ≡ held_of (value_of base digits.now) }
{
    let mut value: u64 = 0;
    for &b in digits {
        value = value.checked_mul(base)?.checked_add(digit(b)?)?;
    }
    Some(value)
}

fn is_digit(b: u8, base: u64) -> bool
    requires { base ≤ 16 }
    ensures { result ≡ is_digit base b }
{
    digit(b).is_some_and(|d| d < base)
}

// What a byte is worth as a digit.
#[tactic(auto, unfolding(crate::specs::Digit::digit_of))]
pub fn digit(b: u8) -> Option<u64>
    ensures { SomeIff result (digit_of b < 16) (digit_of b) }
{
    match b {
        b'0'..=b'9' => Some((b - b'0') as u64),
        b'A'..=b'F' => Some((b - b'A' + 10) as u64),
        b'a'..=b'f' => Some((b - b'a' + 10) as u64),
        _ => None,
    }
}
