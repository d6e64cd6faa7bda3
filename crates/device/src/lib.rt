// What the lines of devices share, whatever a device is: the pending map.
#![tactic(auto)]

ghost use Rattle.std.specs.Prelude.{cond, true, ◌≡◌, ◌<◌};
ghost use Rattle.word.specs.Map.{with_bit};

use word::map::with_bit;

pub mod writes;

// A choice between two answers, as `cond` makes it.
pub fn pick<T: Copy>(test: bool, yes: T, no: T) -> T
    ensures { result ≡ cond test yes no }
{
    if test { yes } else { no }
}

pub fn pending_on(n: usize, finished: bool, pending: u32) -> u32
    requires { n < 8 }
    ensures { result ≡ cond finished (with_bit n true pending) pending }
{
    if finished {
        return with_bit(n, true, pending);
    }
    pending
}
