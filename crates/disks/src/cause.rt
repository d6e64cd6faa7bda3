// The pending map as Cause shows it, on line 3.
ghost use Rattle.std.specs.Prelude.{◌≡◌};
ghost use Rattle.disks.specs.Cause.{shown_of};

use cp0::interrupt::with_line;

pub fn shown(pending: u32, cause: u32) -> u32
    ensures { result ≡ shown_of pending cause }
{
    with_line(cause, 3, pending != 0)
}
