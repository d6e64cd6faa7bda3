// What a technician looks at.
#![tactic(auto)]

mod paper; // paper
mod examine; // x, xp

use crate::examine::Examined;
use image::lent::Seen;
use manual::Help;
use message::say;
use phrase::lay;
use screen::bad::Misfit;
use screen::clocks::Clocks;
use screen::cp0_words::Cp0;
use screen::sizes::{Lengths, Sizes};
use screen::tables::{Printers, Registers, Tlb};
use session::turn::View;

fn sizes<'a>(lent: Seen<'a>) -> Sizes<'a> {
    Sizes {
        image: lent.image,
        lengths: Lengths {
            execution: lent.execution.len(),
            bootstrap: lent.bootstrap.len(),
            ram: lent.ram.len(),
            paper: lent.paper.len(),
            journal: lent.journal.len(),
        },
    }
}

fn printers<'a>(lent: Seen<'a>) -> Printers<'a> {
    Printers {
        image: lent.image,
        eighth: lent.paper.len() / 8,
    }
}

// `line` is what was typed. Answers the place in `out` behind what is shown.
pub fn show(view: View, line: &[u8], out: &mut [u8], lent: Seen) -> usize {
    match view {
        View::Said(message) => say(out, 0, lent.image, message),
        View::Registers => lay(out, 0, Registers(lent.image)),
        View::Tlb => lay(out, 0, Tlb(lent.image)),
        View::Printers => lay(out, 0, printers(lent)),
        View::Cp0 => lay(out, 0, Cp0(lent.image)),
        View::Clocks => lay(out, 0, Clocks(lent.image)),
        View::Station => lay(out, 0, sizes(lent)),
        View::Units(look) => lay(out, 0, Examined { look, lent }),
        View::Paper { printer } => paper::show(out, lent, printer),
        View::Help(topic) => lay(out, 0, Help(topic)),
        View::Bad { place } => lay(out, 0, Misfit { line, place }),
    }
}
