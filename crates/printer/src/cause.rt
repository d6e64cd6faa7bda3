// The pending map as Cause shows it, on line 6.
ghost use Rattle.std.specs.Prelude.{◌≡◌};
ghost use Rattle.printer.specs.Cause.{shown_of};

use cp0::interrupt::with_line;

// Stays: the disks' `shown` is the same one call, with their line; a third function for both would not make either shorter.
pub fn shown(pending: u32, cause: u32) -> u32
    ensures { result ≡ shown_of pending cause }
{
    with_line(cause, 6, pending != 0)
}
