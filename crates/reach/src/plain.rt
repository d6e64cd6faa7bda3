// The plain access: nearly every fetch, load and store is aligned and in RAM with VM off, and needs neither the table nor the map.
ghost use Rattle.std.specs.Prelude.{◌≡◌};
ghost use Rattle.reach.specs.Plain.{plain_of};

use crate::access::Width;
use crate::check::aligned;
use board::places::RAM;
use word::map::has_bit;

// `ram` is RAM's length in bytes.
pub fn plain(status: u32, width: Width, ram: u32, va: u32) -> bool
    ensures { result ≡ plain_of status width ram va }
{
    !has_bit(24, status) && aligned(width, va) && RAM <= va && va - RAM < ram
}
