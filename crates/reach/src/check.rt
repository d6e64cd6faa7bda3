// Alignment, then privilege: both answer the same code.
ghost use Rattle.std.specs.Prelude.{◌≡◌, ◌&&◌};
ghost use Rattle.reach.specs.Check.{address_error, aligned_of, allowed_of};

use crate::access::{Kind, Width};
use crate::codes::{ADEL, ADES};
use cp0::privilege::Mode;

pub fn address_error(kind: Kind) -> u32
    ensures { result ≡ address_error kind }
{
    match kind {
        Kind::Fetch | Kind::Load => ADEL,
        Kind::Store => ADES,
    }
}

pub fn aligned(width: Width, a: u32) -> bool
    ensures { result ≡ aligned_of width a }
{
    match width {
        Width::One | Width::Part => true,
        Width::Two => a % 2 == 0,
        Width::Four => a % 4 == 0,
    }
}

fn allowed(mode: Mode, a: u32) -> bool
    ensures { result ≡ allowed_of mode a }
{
    let lowest = if mode.vm { 0x8000_0000 } else { 0x2000_0000 };
    !mode.user || lowest <= a
}

pub fn checked(mode: Mode, width: Width, a: u32) -> bool
    ensures { result ≡ (aligned_of width a && allowed_of mode a) }
{
    aligned(width, a) && allowed(mode, a)
}
