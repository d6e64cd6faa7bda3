// The pass that undoes, newest first.
ghost use Rattle.std.specs.Prelude.{◌≡◌, true, ◌%◌, ◌≤◌, ◌<◌, max, length};
ghost use Rattle.ring.specs.Back.{undone, undone_side, all_fit_core};
ghost use Rattle.record.specs.Layout.{record_of};
ghost use Rattle.journal.specs.Journal.{slots_of};
ghost use Rattle.clock.specs.Tick.{time_of};
ghost use Rattle.marks.specs.Steps.{given_back_of};
ghost use Rattle.step.specs.World.{world_in};
ghost use Rattle.undo.specs.Undo.{machine_back, undo_of};
ghost use Rattle.undo.specs.Fit.{Undoable};
ghost use Rattle.back.specs.Back.{both, no_roms, view_in};

use clock::time;
use journal::SLOT;
use marks::backward::give_back;
use record::decode::decode;
use state::machine::Machine;
use undo::back::undo;

// The machine, RAM, paper and index before the step whose record is in `slot`, with `hand` records on hand, its own too.
fn undo_slot(
    slot: &[u8],
    m: Machine,
    ram: &mut [u8],
    paper: &mut [u8],
    index: &mut [u8],
    hand: usize,
) -> Machine
    requires slot_len { length slot.now ≡ 512 }
    requires index_len { length index.old % 16 ≡ 0 }
    requires undoable { Undoable (record_of slot.now) (length ram.old) }
    ensures value { (result ≡ machine_back (record_of slot.now) m)
        × (world_in result ram.new paper.new
        ≡ undo_of (record_of slot.now) (world_in m ram.old paper.old)) }
    ensures index_after { index.new ≡ given_back_of (time_of m.board.clock) hand (record_of slot.now).saved index.old }
{
    let r = decode(slot);
    give_back(index, time(m.board.clock), hand as u64, r.saved);
    undo(r, m, ram, paper)
}

// Undoes the `k` newest of the `hand` records on hand, which are well formed. On hand and next slot stay.
pub fn undo_all(
    m: Machine,
    ram: &mut [u8],
    paper: &mut [u8],
    journal: &[u8],
    index: &mut [u8],
    next: usize,
    hand: usize,
    k: usize,
) -> Machine
    requires next_bound { next < max (slots_of journal.now) 1 }
    requires k_le_hand { (k ≤ hand) × (hand ≤ slots_of journal.now) }
    requires index_len { length index.old % 16 ≡ 0 }
    requires paper_value { all_fit_core (both no_roms) (slots_of journal.now) journal.now next k (view_in m (length ram.old) (length paper.old))
        ≡ true }
    ensures paper_after { (world_in result ram.new paper.new
        ≡ undone (both no_roms) (slots_of journal.now) journal.now next k
        (world_in m ram.old paper.old))
        × (result.journal ≡ m.journal) }
    ensures index_after { index.new
        ≡ undone_side (both no_roms) (slots_of journal.now) journal.now next k hand
        (world_in m ram.old paper.old) index.old }
{
    let slots = journal.len() / SLOT;
    let mut here = m;
    for j in 0..k {
        let at = SLOT * ring::slot_back(slots, next, j + 1);
        let end = at + SLOT;
        let before = undo_slot(&journal[at..end], here, ram, paper, index, hand - j);
        here = before;
    }
    here
}
