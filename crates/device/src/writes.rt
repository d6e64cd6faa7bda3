// Whether a device takes writes: an installed, idle one does, and others ignore them.
ghost use Rattle.std.specs.Prelude.{◌≡◌, ◌&&◌, ◌<◌, not};
ghost use Rattle.word.specs.Map.{bit};

use word::map::has_bit;

pub fn takes_writes(n: usize, installed: u32, busy: bool) -> bool
    requires { n < 8 }
    ensures { result ≡ (bit n installed && not busy) }
{
    has_bit(n, installed) & !busy
}
