// A step, once it is decided: the oldest record drops off, then the word written is marked.
ghost use Rattle.std.specs.Prelude.{◌≡◌, ◌+◌, ◌*◌, ◌/◌, ◌%◌, ◌<◌, ◌≤◌, length, None};
ghost use Rattle.clock.specs.Tick.{time_of};
ghost use Rattle.decide.specs.Range.{Within};
ghost use Rattle.frames.specs.Bytes.{replace_all_in};
ghost use Rattle.journal.specs.Journal.{slots_of, ring_of, Ready};
ghost use Rattle.marks.specs.Steps.{FitsRam, bare_in, forgotten_of, below_in, kept_of, marked_of};

use clock::{Clock, time};
use decide::effect::Effect;
use frames::{note, replace_any};
use journal::SLOT;
use memory::load_word;
use record::Saved;
use record::decode::saved;
use state::machine::Journal;

// The record is any bytes that the host lent, and nobody has judged it: its place may lie past RAM, where no entry is.
fn forget_saved(index: &mut [u8], gone: u64, s: Saved)
    requires { length index.old % 16 ≡ 0 }
    ensures { index.new ≡ replace_all_in gone (λ k. None) (bare_in s) index.old }
{
    if let Saved::RamWord(place, _, _) = s {
        let at = place as usize;
        replace_any(index, gone, at / 4096, None);
    }
}

// Before the step's record is ended: with every slot on hand it goes over the oldest one, whose step is then named no more. What that one saved stands in the slot
// till then. The clock is that of the step.
pub fn forget(index: &mut [u8], journal: &[u8], mark: Journal, clock: Clock)
    requires index_len { length index.old % 16 ≡ 0 }
    requires ready { Ready journal.now mark }
    requires journal_nonzero { 0 < slots_of journal.now }
    ensures { index.new
        ≡ forgotten_of (slots_of journal.now) (ring_of mark journal.now) (time_of clock) index.old }
{
    let slots = journal.len() / SLOT;
    if (mark.on_hand as usize) < slots {
        return;
    }
    let at = SLOT * (mark.next_slot as usize);
    let end = at + SLOT;
    let gone = std::num::wrapping_sub_u64(time(clock), slots as u64);
    forget_saved(index, gone, saved(&journal[at..end]))
}

// How many are on hand below the record of the step, of so many slots.
pub fn below(slots: usize, hand: u32) -> u64
    requires { 0 < slots }
    ensures { result ≡ below_in slots hand }
{
    if (hand as usize) < slots {
        return hand as u64;
    }
    (slots - 1) as u64
}

fn mark_word(index: &mut [u8], time: u64, below: u64, ram: &[u8], at: u32, word: u32) -> u64
    requires fits_ram { FitsRam ram.now index.old }
    requires within { Within (length ram.now) 16 (Effect.Ram at word) }
    ensures { (result ≡ kept_of time below (Effect.Ram at word) index.old)
        × (index.new ≡ marked_of time (Effect.Ram at word) ram.now index.old) }
{
    let place = at as usize;
    let changed = load_word(ram, place) != word;
    note(index, time, below, place / 4096, changed)
}

// Once the step is decided: the word that it writes is marked, if that changes it. The answer is what the record is to keep.
pub fn mark(index: &mut [u8], time: u64, below: u64, ram: &[u8], effect: Effect) -> u64
    requires fits_ram { FitsRam ram.now index.old }
    requires within { Within (length ram.now) 16 effect }
    ensures { (result ≡ kept_of time below effect index.old)
        × (index.new ≡ marked_of time effect ram.now index.old) }
{
    match effect {
        Effect::Ram(at, word) => mark_word(index, time, below, ram, at, word),
        _ => 0,
    }
}
