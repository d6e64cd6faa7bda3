// One step with its record, on the parts that a run holds: what comes before the decision, and what comes after it. The record is begun before the tick with all that
// it keeps of the state, and ended with what the step overwrites once that is decided: so no old value is kept aside while the step works. The decision itself, which
// takes the table by value, is the loop's to ask for: a function that took the table in and on would copy it in every step (docs/SPEED.md).
#![tactic(auto)]

ghost use Rattle.std.specs.Prelude.{◌≡◌, length};
ghost use Rattle.printer.specs.Saved.{saved_paper_of};
ghost use Rattle.held.specs.Board.{printers_in, Told};
ghost use Rattle.decide.specs.Range.{Within};
ghost use Rattle.journal.specs.Journal.{ring_of, Ready, held_record, begun_of, ended_of};
ghost use Rattle.decide.specs.Lent.{lent_of, sizes_of, Whole};
ghost use Rattle.step.specs.Held.{TickIs, ApplyIs};
ghost use Rattle.step.specs.Parts.{saved_with};
ghost use Rattle.marks.specs.Steps.{FitsRam};
ghost use Rattle.turn.specs.Turn.{Fit, Onward, kept_in, marked_in};

use clock::{Clock, time};
use decide::effect::{Decision, Effect};
use decide::lent::sizes;
use held::Held;
use held::line::saved_paper;
use journal::{SLOT, begun, ended};
use marks::onward::{below, forget};
use printer::saved::SavedPaper;
use state::machine::{Journal, Settings};
use step::apply::applied;
use step::saved::saved;
use step::tick::ticked;
use tlb::Row;

// The parts that a run holds.
#[derive(Clone, Copy)]
pub struct Parts {
    pub core: [u32; 14],
    pub held: Held,
    pub regs: [u32; 32],
    pub rows: [Row; 16],
    pub words: [u32; 40],
    pub mark: Journal,
}

#[derive(Clone, Copy)]
pub struct Turned {
    pub held: Held,
    pub mark: Journal,
}

// Where no printer ends, nothing is printed (printer/proofs/Notes: silent-note).
fn kept_paper(held: Held, words: &[u32; 40], paper: &[u8]) -> SavedPaper
    requires { Told held words.now }
    ensures { result ≡ saved_paper_of (printers_in words.now) paper.now }
{
    if held.soon == 1 {
        return saved_paper(words, paper);
    }
    let bytes = [0u8; 8];
    SavedPaper { mask: 0, bytes }
}

// With no slots, nothing of a record is worked out.
fn begin(
    journal: &mut [u8],
    mark: Journal,
    core: &[u32; 14],
    held: Held,
    words: &[u32; 40],
    paper: &[u8],
)
    requires ready { Ready journal.old mark }
    requires core_len { length core.now ≡ 14 }
    requires told { Told held words.now }
    ensures { journal.new
        ≡ begun_of mark
        (held_record core.now held.clock.timer held.pending (saved_paper_of (printers_in words.now) paper.now) words.now)
        journal.old }
{
    if journal.len() < SLOT {
        return;
    }
    let kept = kept_paper(held, words, paper);
    let clock = held.clock;
    begun(journal, mark, core, clock.timer, held.pending, kept, words);
}

fn end(
    journal: &mut [u8],
    mark: Journal,
    clock: Clock,
    effect: Effect,
    regs: &[u32; 32],
    old: Row,
    ram: &[u8],
    index: &mut [u8],
) -> Journal
    requires ready { Ready journal.old mark }
    requires within { Within (length ram.now) 16 effect }
    requires fits_ram { FitsRam ram.now index.old }
    ensures journal_after { ring_of result journal.new
        ≡ ended_of mark (saved_with (kept_in mark journal.old clock effect index.old) effect regs.now old ram.now)
        journal.old }
    ensures index_after { index.new ≡ marked_in mark journal.old clock effect ram.now index.old }
{
    if journal.len() < SLOT {
        return mark;
    }
    forget(index, journal, mark, clock);
    let under = below(journal.len() / SLOT, mark.on_hand);
    let distance = marks::onward::mark(index, time(clock), under, ram, effect);
    ended(journal, mark, saved(effect, regs, old, ram, distance))
}

// Before the decision: the record begun, and the tick.
pub fn start(
    core: &mut [u32; 14],
    held: Held,
    settings: Settings,
    words: &mut [u32; 40],
    paper: &mut [u8],
    journal: &mut [u8],
    mark: Journal,
) -> Held
    requires { Fit core.old held words.old paper.old journal.old mark }
    ensures tick_is { TickIs settings core.old held words.old paper.old result
        core.new words.new paper.new }
    ensures journal_after { journal.new
        ≡ begun_of mark
        (held_record core.old held.clock.timer held.pending (saved_paper_of (printers_in words.old) paper.old) words.old)
        journal.old }
    ensures onward { Onward held.clock result.clock }
{
    begin(journal, mark, core, held, words, paper);
    ticked(core, held, settings, words, paper)
}

// After the decision: the oldest record forgotten, the new one ended, and the effect. `old` is the row that the effect overwrites; the table itself is the caller's to set.
pub fn finish(
    core: &mut [u32; 14],
    after: Held,
    settings: Settings,
    words: &mut [u32; 40],
    d: Decision,
    old: Row,
    regs: &mut [u32; 32],
    execution: &[u8],
    bootstrap: &[u8],
    ram: &mut [u8],
    journal: &mut [u8],
    mark: Journal,
    index: &mut [u8],
) -> Turned
    requires ready { Ready journal.old mark }
    requires fits_ram { FitsRam ram.old index.old }
    requires within { Within (length ram.old) 16 d.effect }
    requires told { Told after words.old }
    requires whole { Whole (lent_of execution.now bootstrap.now ram.old) }
    ensures apply_is { ApplyIs settings (sizes_of (lent_of execution.now bootstrap.now ram.old)) d core.old after
        words.old regs.old ram.old result.held core.new words.new regs.new ram.new }
    ensures journal_after { ring_of result.mark journal.new
        ≡ ended_of mark (saved_with (kept_in mark journal.old after.clock d.effect index.old) d.effect regs.old old ram.old)
        journal.old }
    ensures index_after { index.new ≡ marked_in mark journal.old after.clock d.effect ram.old index.old }
{
    let effect = d.effect;
    let clock = after.clock;
    let next = end(journal, mark, clock, effect, regs, old, ram, index);
    let lent = sizes(execution, bootstrap, ram);
    let left = applied(core, after, settings, words, d, lent, regs, ram);
    Turned {
        held: left,
        mark: next,
    }
}
