// How a run holds the eight printers: as their forty words, changed where they stand. A step that no printer has a part in copies them into its record, and
// nowhere else.
#![tactic(auto)]

ghost use Rattle.std.specs.Prelude.{◌≡◌, ◌+◌, ◌<◌, ◌≤◌};
ghost use Rattle.std.proofs.lemmas.List.Edits.{sets};
ghost use Rattle.word.specs.Lists.{flat};
ghost use Rattle.state.specs.Layout.{printer_words};
ghost use Rattle.held.specs.Board.{printer_in, printers_in};

pub mod core_words; // the core, as its fourteen words
pub mod line; // the moves of the printers' line

use clock::Clock;
use printer::Printer;
use state::encode::printer_words;
use std::array;

// What a run holds of the board beside the settings and the printers' words. `soon` tells in how many ticks a printer ends
// at the earliest: 0 where none works, and 1 where that has not been looked at. Only where it is 1 is a printer looked at.
#[derive(Clone, Copy)]
pub struct Held {
    pub clock: Clock,
    pub pending: u32,
    // Stays: a number, for an enum that is handed on costs every step (docs/SPEED.md, "The pages that are remembered").
    pub soon: u32,
}

// Stays: a run changes the words where they stand, and this and `put_printer` alone say which five are a printer's.
pub fn printer_in(words: &[u32; 40], n: usize) -> Printer
    requires { n < 8 }
    ensures { result ≡ printer_in words.now n }
{
    let at = 5 * n;
    Printer {
        status: words[at],
        command: words[at + 1],
        data0: words[at + 2],
        left: words[at + 3],
        count: words[at + 4],
    }
}

pub fn unpacked(words: &[u32; 40]) -> [Printer; 8]
    ensures { result ≡ printers_in words.now }
{
    array::from_fn(|n| printer_in(words, n))
}

pub fn put_printer(p: Printer, words: &mut [u32; 40], at: usize)
    requires { at + 5 ≤ 40 }
    ensures { words.new ≡ sets words.old at (printer_words p) }
{
    words[at] = p.status;
    words[at + 1] = p.command;
    words[at + 2] = p.data0;
    words[at + 3] = p.left;
    words[at + 4] = p.count;
}

pub fn packed(printers: [Printer; 8]) -> [u32; 40]
    ensures { result ≡ flat printer_words printers }
{
    printer_words(printers)
}
