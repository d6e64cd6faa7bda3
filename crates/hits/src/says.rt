// What the record of a step says (docs/RECORD.md).
ghost use Rattle.std.specs.Prelude.{◌≡◌, ◌+◌, ◌*◌, ◌/◌, ◌≤◌, ◌↔◌, Some, IsSome, IfSome, length, slice_get};
ghost use Rattle.std.specs.Simd.{first_chunks};
ghost use Rattle.memory.specs.Memory.{load_at};
ghost use Rattle.ring.specs.Slots.{slot_back};

use journal::SLOT;
use memory::load_word;
use record::{KIND, OLD, PC, PLACE, RAM};

// A store of a word: its place in RAM, and what it was before.
#[derive(Clone, Copy)]
pub struct Store {
    pub place: u32,
    pub old: u32,
}

// The record of the k-th newest step, where `next` is the next slot. There is none for numbers that no image has that was accepted.
pub fn record(journal: &[u8], next: usize, k: usize) -> Option<&[u8; SLOT]>
    ensures { IfSome
        result
        (λ found.
        slice_get (first_chunks 512 (length journal.now / 512) journal.now) (slot_back (length journal.now / 512) next k)
        ≡ Some found.now) }
{
    let (slots, _) = journal.as_chunks::<SLOT>();
    if slots.len() <= next {
        return None;
    }
    if slots.len() < k {
        return None;
    }
    slots.get(ring::slot_back(slots.len(), next, k))
}

fn word(record: &[u8; SLOT], k: usize) -> u32
    requires { 4 * k + 4 ≤ 512 }
    ensures { result ≡ load_at 4 «record».now (4 * k) }
{
    load_word(record, 4 * k)
}

pub fn pc(record: &[u8; SLOT]) -> u32
    ensures { result ≡ load_at 4 «record».now 8 }
{
    word(record, PC)
}

// What the step stored, where it wrote a word of RAM.
pub fn stored(record: &[u8; SLOT]) -> Option<Store>
    ensures kind { IsSome result ↔ (load_at 4 «record».now 236 ≡ 3) }
    ensures words { IfSome result (λ store. (store.place ≡ load_at 4 «record».now 240) × (store.old ≡ load_at 4 «record».now 244)) }
{
    if word(record, KIND) != RAM {
        return None;
    }
    Some(Store {
        place: word(record, PLACE),
        old: word(record, OLD),
    })
}

// The word of RAM at a place; 0 where RAM has none.
// Stays: 0 is a value that is compared like any other, no sign of none: an Option would be unwrapped to 0 at each call.
pub fn present(ram: &[u8], place: u32) -> u32 {
    let at = place as usize;
    if ram.len() < at + 4 {
        return 0;
    }
    load_word(ram, at)
}
