// Whether two rows match one address. No address that is translated meets two matches in a table that is not doubled, so that a run need not look before each step.
ghost use Rattle.std.specs.Prelude.{◌≡◌};
ghost use Rattle.tlb.specs.Doubled.{clash_of, clashes_in, doubled_in};

use crate::{Row, matches};

// The same page, at 0x20000000 or above, and the same ASID or G in either: the one matches the other's EntryHi.
fn clash(a: Row, b: Row) -> bool
    ensures { result ≡ clash_of a b }
{
    0x2000_0000 <= a.high && (matches(b, a.high) || matches(a, b.high))
}

// Whether `row` clashes with one of `rows`.
fn clashes(row: Row, rows: &[Row]) -> bool
    ensures { result ≡ clashes_in row rows.now }
{
    rows.iter().any(|other| clash(row, *other))
}

pub fn doubled(t: [Row; 16]) -> bool
    ensures { result ≡ doubled_in t }
{
    for (i, row) in t.iter().enumerate() {
        if clashes(*row, &t[i + 1..]) {
            return true;
        }
    }
    false
}
