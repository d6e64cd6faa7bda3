// The checksum, and whether two hex digits say it.
ghost use Rattle.std.specs.Prelude.{◌≡◌, ◌+◌, ◌%◌};
ghost use Rattle.remote.specs.Sum.{sum_of, says_of};

use text::digit;

pub fn sum(bytes: &[u8]) -> u64
    ensures { result ≡ sum_of bytes.now }
{
    let mut total: u64 = 0;
    for &b in bytes {
        total = added(total, b);
    }
    total
}

pub fn added(total: u64, b: u8) -> u64
    ensures { result ≡ (total + b) % 256 }
{
    (total % 256 + b as u64) % 256
}

#[tactic(auto, unfolding(crate::specs::Sum::says_of))]
pub fn says(high: u8, low: u8, total: u64) -> bool
    ensures { result ≡ says_of high low total }
{
    let (Some(h), Some(l)) = (digit(high), digit(low)) else {
        return false;
    };
    h * 16 + l == total
}
