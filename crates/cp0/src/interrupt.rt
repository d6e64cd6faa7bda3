// Interrupts: IP is bits 8-15 of Cause, IM the same bits of Status.
ghost use Rattle.std.specs.Prelude.{◌≡◌, ◌<◌};
ghost use Rattle.cp0.specs.Interrupt.{interrupts_of, with_line};

use word::map::{has_bit, with_bit};

pub fn interrupts(status: u32, cause: u32) -> bool
    ensures { result ≡ interrupts_of status cause }
{
    let ip = cause / 256 % 256;
    let im = status / 256 % 256;
    has_bit(0, status) & (ip & im != 0)
}

// IP[line]: the timer's is 2, the printers' 6.
pub fn with_line(cause: u32, line: usize, on: bool) -> u32
    requires { line < 8 }
    ensures { result ≡ with_line line on cause }
{
    with_bit(8 + line, on, cause)
}
