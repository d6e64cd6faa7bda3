// Not for the panel: what tests ask of the crate `seek`. The step is 0 where there is none.
#![tactic(auto)]

ghost use Rattle.std.specs.Prelude.{◌≡◌};
ghost use Rattle.seek.specs.Seek.{last_change_of, newest_at_of, oldest_at_of};
ghost use Rattle.sought.specs.Numbers.{step_number, change_numbers};

use seek::{Change, last_change, newest_at, oldest_at};

fn numbers(found: Option<Change>) -> [u32; 3]
    ensures { result ≡ change_numbers found }
{
    match found {
        Some(change) => [change.step, change.old, change.new],
        None => [0, 0, 0],
    }
}

// Writes the step, the word before it and the word after it to `out`.
#[unsafe(no_mangle)]
pub extern "C" fn sought_last_change(
    ram: &[u8],
    journal: &[u8],
    on_hand: u32,
    next_slot: u32,
    place: u32,
    out: &mut [u32; 3],
)
    ensures { out.new ≡ change_numbers (last_change_of ram.now journal.now on_hand next_slot place) }
{
    *out = numbers(last_change(ram, journal, on_hand, next_slot, place));
}

#[unsafe(no_mangle)]
pub extern "C" fn sought_newest_at(journal: &[u8], on_hand: u32, next_slot: u32, pc: u32) -> u32
    ensures { result ≡ step_number (newest_at_of journal.now on_hand next_slot pc) }
{
    newest_at(journal, on_hand, next_slot, pc).unwrap_or(0)
}

#[unsafe(no_mangle)]
pub extern "C" fn sought_oldest_at(journal: &[u8], on_hand: u32, next_slot: u32, pc: u32) -> u32
    ensures { result ≡ step_number (oldest_at_of journal.now on_hand next_slot pc) }
{
    oldest_at(journal, on_hand, next_slot, pc).unwrap_or(0)
}
