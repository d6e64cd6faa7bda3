// What a store of a word in the device area means, and what it does to the interrupt lines.
ghost use Rattle.std.specs.Prelude.{◌≡◌};
ghost use Rattle.bus.specs.Store.{register_write, bus_write_of};
ghost use Rattle.bus.specs.Stored.{timer_line, cause_stored};

use crate::offset::{DEVICES, PRINTERS, field, line, number};
use cp0::interrupt::with_line;
use printer::cause::shown;

// A store that does something: what it writes, and to which printer.
#[derive(Clone, Copy)]
pub enum Store {
    Timer(u32),
    Command(usize, u32),
    Data(usize, u32),
}

fn register_write(n: usize, field: u32, word: u32) -> Option<Store>
    ensures { result ≡ register_write n field word }
{
    match field {
        1 => Some(Store::Command(n, word)),
        2 => Some(Store::Data(n, word)),
        _ => None,
    }
}

#[tactic(auto, unfolding(crate::specs::Store::bus_write_of))]
pub fn write(offset: u32, word: u32) -> Option<Store>
    ensures { result ≡ bus_write_of offset word }
{
    if offset == 0x20 {
        return Some(Store::Timer(word));
    }
    if offset < DEVICES || line(offset) != PRINTERS {
        return None;
    }
    register_write(number(offset), field(offset), word)
}

fn timer_line(s: Option<Store>, cause: u32) -> u32
    ensures { result ≡ timer_line s cause }
{
    match s {
        Some(Store::Timer(_)) => with_line(cause, 2, false),
        _ => cause,
    }
}

// `pending` is the map after the store.
pub fn cause_stored(s: Option<Store>, pending: u32, cause: u32) -> u32
    ensures { result ≡ cause_stored s pending cause }
{
    shown(pending, timer_line(s, cause))
}
