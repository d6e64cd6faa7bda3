// The forms of `x` and `xp`.
ghost use Rattle.std.specs.Prelude.{◌≡◌};
ghost use Rattle.text.specs.Number.{decimal_at};
ghost use Rattle.forms.specs.Look.{looking_of, shape_of, times_of, format_of, letter_of, unit_of};

use crate::kinds::{Format, Look, Unit};
use piece::behind::counted;
use piece::mark::{Found, Mark, fails, goes_on, word};
use text::NoNumber;

// What stands behind the slash.
#[derive(Clone, Copy)]
struct Shape {
    count: u64,
    format: Format,
    unit: Unit,
    mark: Mark,
}

#[tactic(auto, unfolding(crate::specs::Look::looking_of))]
pub fn looking(line: &[u8], m: Mark, name: &[u8], physical: bool) -> Found<Look>
    ensures { result ≡ looking_of line.now m name.now physical }
{
    let shape = behind_slash(line, word(line, m, name));
    let address = counted(line, shape.mark);
    let value = Look {
        count: shape.count,
        format: shape.format,
        unit: shape.unit,
        address: address.value,
        physical,
    };
    Found {
        value,
        mark: address.mark,
    }
}

#[tactic(auto, unfolding(crate::specs::Look::shape_of))]
fn behind_slash(line: &[u8], m: Mark) -> Shape
    ensures { result ≡ shape_of line.now m }
{
    let slash = word(line, m, b"/");
    if !slash.fits {
        return Shape {
            count: 1,
            format: Format::Hex,
            unit: Unit::Word,
            mark: m,
        };
    }
    let n = count(line, slash);
    let f = format(line, n.mark);
    let u = unit(line, f.mark);
    Shape {
        count: n.value,
        format: f.value,
        unit: u.value,
        mark: u.mark,
    }
}

// A decimal number, or 1 where none stands there.
fn count(line: &[u8], m: Mark) -> Found<u64>
    ensures { result ≡ times_of m (decimal_at line.now m.at) }
{
    match text::decimal(line, m.at) {
        Ok(n) => Found {
            value: n.value,
            mark: goes_on(m, n.to),
        },
        Err(NoNumber::TooLarge(place)) => Found {
            value: 0,
            mark: fails(m, place),
        },
        Err(NoNumber::Nothing(_)) => Found { value: 1, mark: m },
    }
}

#[tactic(auto, unfolding(crate::specs::Look::format_of))]
fn format(line: &[u8], m: Mark) -> Found<Format>
    ensures { result ≡ format_of line.now m }
{
    let letters = [
        (b'x', Format::Hex),
        (b'd', Format::Signed),
        (b'u', Format::Unsigned),
        (b'c', Format::Character),
    ];
    letter(line, m, &letters, Format::Hex)
}

#[tactic(auto, unfolding(crate::specs::Look::unit_of))]
fn unit(line: &[u8], m: Mark) -> Found<Unit>
    ensures { result ≡ unit_of line.now m }
{
    let letters = [(b'b', Unit::Byte), (b'h', Unit::Half), (b'w', Unit::Word)];
    letter(line, m, &letters, Unit::Word)
}

// What the first of the letters that stands there means, or what counts where none does.
fn letter<T: Copy>(line: &[u8], m: Mark, letters: &[(u8, T)], or: T) -> Found<T>
    ensures { result ≡ letter_of line.now m letters.now or }
{
    for &(b, value) in letters {
        let mark = word(line, m, &[b]);
        if mark.fits {
            return Found { value, mark };
        }
    }
    Found { value: or, mark: m }
}
