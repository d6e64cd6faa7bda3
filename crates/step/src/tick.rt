// Step parts 1 and 2: the clock group, Random, the printers, and both interrupt lines.
ghost use Rattle.std.specs.Prelude.{◌≡◌, ◌≤◌, length};
ghost use Rattle.held.specs.Board.{Waits, Told};
ghost use Rattle.step.specs.Tick.{random_ticked, rang_line, lines_ticked};
ghost use Rattle.step.specs.Parts.{core_ticked};
ghost use Rattle.step.specs.Held.{PrintedIs, TickIs};

use clock::tick_of;
use cp0::interrupt::with_line;
use cp0::random::next_random;
use cp0::registers::Cp0;
use held::Held;
use held::core_words::{core_in, put_core};
use held::line::{soon_in, tick, wait};
use printer::cause::shown;
use state::machine::{Core, Settings};

fn rang_line(rang: bool, cause: u32) -> u32
    ensures { result ≡ rang_line rang cause }
{
    if rang {
        return with_line(cause, 2, true);
    }
    cause
}

#[tactic(auto, unfolding(cp0::specs::Registers::with_register))]
fn cp0_ticked(rang: bool, pending: u32, c: Cp0) -> Cp0
    ensures { result ≡ lines_ticked rang pending (random_ticked c) }
{
    Cp0 {
        random: next_random(c.random),
        cause: shown(pending, rang_line(rang, c.cause)),
        ..c
    }
}

// `pending` is the map after the printers' tick.
pub fn core_ticked(rang: bool, pending: u32, c: Core) -> Core
    ensures { result ≡ core_ticked rang pending c }
{
    Core {
        cp0: cp0_ticked(rang, pending, c.cp0),
        ..c
    }
}

#[derive(Clone, Copy)]
pub struct AfterPrinters {
    pub pending: u32,
    pub soon: u32,
}

// Printers that all stand still are not looked at (printer/proofs/Ticks: idle_tick), and where none ends they only wait.
fn printed(words: &mut [u32; 40], pending: u32, soon: u32, paper: &mut [u8]) -> AfterPrinters
    requires paper_len_bound { length paper.old ≤ 65536 }
    requires waits { Waits soon words.old × (length words.old ≡ 40) }
    ensures { PrintedIs words.old pending paper.old result words.new paper.new }
{
    if soon == 0 {
        return AfterPrinters { pending, soon };
    }
    if 1 < soon {
        wait(words);
        return AfterPrinters {
            pending,
            soon: soon - 1,
        };
    }
    let map = tick(words, pending, paper);
    AfterPrinters {
        pending: map,
        soon: soon_in(words),
    }
}

// Neither registers, nor table, nor RAM have a part in it.
pub fn ticked(
    core: &mut [u32; 14],
    held: Held,
    settings: Settings,
    words: &mut [u32; 40],
    paper: &mut [u8],
) -> Held
    requires paper_len_bound { length paper.old ≤ 65536 }
    requires told { Told held words.old }
    ensures { TickIs settings core.old held words.old paper.old result core.new words.new paper.new }
{
    let printed = printed(words, held.pending, held.soon, paper);
    let beat = tick_of(held.clock);
    let clock = beat.clock;
    let was = core_in(core);
    put_core(core_ticked(beat.rang, printed.pending, was), core);
    Held {
        clock,
        pending: printed.pending,
        soon: printed.soon,
    }
}
