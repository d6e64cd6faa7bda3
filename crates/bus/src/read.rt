// What a word of the device area reads.
ghost use Rattle.std.specs.Prelude.{◌≡◌, ◌<◌, get_or};
ghost use Rattle.bus.specs.Words.{bus_table, registers_of, bus_word_of};

use crate::offset::{DEVICES, PRINTERS, field, line, number};
use board::places::{BOOTSTRAP, RAM, Sizes};
use clock::Clock;
use printer::Printer;

// What the bus shows beside the printers' registers.
#[derive(Clone, Copy)]
pub struct Bus {
    pub sizes: Sizes,
    pub clock: Clock,
    pub scale: u32,
    pub installed: u32,
    pub pending: u32,
}

#[tactic(auto, unfolding(crate::specs::Words::bus_table))]
fn bus_register(b: Bus, index: u32) -> u32
    requires { index < 20 }
    ensures { result ≡ get_or (bus_table b) index 0 }
{
    match index {
        0 => RAM,
        1 => b.sizes.ram,
        3 => b.sizes.execution,
        4 => BOOTSTRAP,
        5 => b.sizes.bootstrap,
        6 => b.clock.high,
        7 => b.clock.low,
        8 => b.clock.timer,
        9 => b.scale,
        13 => b.installed,
        18 => b.pending,
        _ => 0,
    }
}

fn printer_register(p: Printer, field: u32) -> u32
    requires { field < 4 }
    ensures { result ≡ get_or (registers_of p) field 0 }
{
    match field {
        0 => p.status,
        1 => p.command,
        2 => p.data0,
        _ => 0,
    }
}

#[tactic(auto, unfolding(crate::specs::Words::bus_word_of))]
pub fn read(b: Bus, printers: [Printer; 8], offset: u32) -> u32
    ensures { result ≡ bus_word_of b printers offset }
{
    if offset < DEVICES {
        return bus_register(b, offset / 4);
    }
    if line(offset) != PRINTERS {
        return 0;
    }
    let n = number(offset);
    let p = printers[n];
    printer_register(p, field(offset))
}
