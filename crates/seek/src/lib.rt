// Questions about the steps on hand, answered from their records: the newest step that changed a word of RAM, and the newest and the oldest at a PC.
#![tactic(auto)]

ghost use Rattle.std.specs.Prelude.{◌≡◌, map, length};
ghost use Rattle.seek.specs.OnHand.{fits_in, Fits, kth_of, held_of};
ghost use Rattle.seek.specs.Latest.{word_before, scan};
ghost use Rattle.seek.specs.Pcs as Pcs;
ghost use Rattle.seek.specs.Seek.{has_word, writes_of, pc_of, last_change_of, newest_at_of, oldest_at_of};

use journal::SLOT;
use memory::load_word;
use record::decode::word;
use record::{KIND, OLD, PC, PLACE, RAM};

// A step on hand that changed a word, with the word before and after it. Steps are counted from the newest, which is 1.
#[derive(Clone, Copy, PartialEq, Eq)]
pub struct Change {
    pub step: u32,
    pub old: u32,
    pub new: u32,
}

fn fits(journal: &[u8], hand: u32, next: u32) -> bool
    ensures { result ≡ fits_in journal.now hand next }
{
    let slots = journal.len() / SLOT;
    ((hand as usize) <= slots) & ((next as usize) < slots)
}

fn has_word(ram: &[u8], place: u32) -> bool
    ensures { result ≡ has_word ram.now place }
{
    let at = place as usize;
    (at % 4 == 0) & (at + 4 <= ram.len())
}

// The record of the `k`-th newest step.
fn record_at(journal: &[u8], next: u32, k: u32) -> &[u8]
    requires { Fits journal.now k next }
    ensures { (result.now ≡ kth_of journal.now next k) × (length result.now ≡ 512) }
{
    let at = SLOT * ring::slot_back(journal.len() / SLOT, next as usize, k as usize);
    let end = at + SLOT;
    &journal[at..end]
}

// The word at `place` before the step of a record, from the word after it.
fn word_before(slot: &[u8], place: u32, after: u32) -> u32
    requires { length slot.now ≡ 512 }
    ensures { result ≡ word_before place (writes_of slot.now) after }
{
    if word(slot, KIND) != RAM {
        return after;
    }
    if word(slot, PLACE) != place {
        return after;
    }
    word(slot, OLD)
}

fn pc_at(journal: &[u8], next: u32, k: u32) -> u32
    requires { Fits journal.now k next }
    ensures { result ≡ pc_of (kth_of journal.now next k) }
{
    word(record_at(journal, next, k), PC)
}

// Up to the step that changed it the word is the present one, so none is tracked.
fn changed(journal: &[u8], hand: u32, next: u32, place: u32, present: u32) -> Option<Change>
    requires { Fits journal.now hand next }
    ensures { result ≡ scan place present 0 (map writes_of (held_of journal.now hand next)) }
{
    for k in 0..hand {
        let step = k + 1;
        let old = word_before(record_at(journal, next, step), place, present);
        if old != present {
            return Some(Change {
                step,
                old,
                new: present,
            });
        }
    }
    None
}

fn newest(journal: &[u8], hand: u32, next: u32, pc: u32) -> Option<u32>
    requires { Fits journal.now hand next }
    ensures { result ≡ Pcs.newest pc 0 (map pc_of (held_of journal.now hand next)) }
{
    for k in 0..hand {
        let step = k + 1;
        if pc_at(journal, next, step) == pc {
            return Some(step);
        }
    }
    None
}

fn oldest(journal: &[u8], hand: u32, next: u32, pc: u32) -> Option<u32>
    requires { Fits journal.now hand next }
    ensures { result ≡ Pcs.oldest pc (map pc_of (held_of journal.now hand next)) hand }
{
    for k in (0..hand).rev() {
        if pc_at(journal, next, k + 1) == pc {
            return Some(k + 1);
        }
    }
    None
}

// Of the `on_hand` newest records, the newest step that changed the word of RAM at `place`; a store of the value that it had does not count.
pub fn last_change(
    ram: &[u8],
    journal: &[u8],
    on_hand: u32,
    next_slot: u32,
    place: u32,
) -> Option<Change>
    ensures { result ≡ last_change_of ram.now journal.now on_hand next_slot place }
{
    if !has_word(ram, place) {
        return None;
    }
    if !fits(journal, on_hand, next_slot) {
        return None;
    }
    let present = load_word(ram, place as usize);
    changed(journal, on_hand, next_slot, place, present)
}

// The newest record on hand whose PC is `pc`.
pub fn newest_at(journal: &[u8], on_hand: u32, next_slot: u32, pc: u32) -> Option<u32>
    ensures { result ≡ newest_at_of journal.now on_hand next_slot pc }
{
    if !fits(journal, on_hand, next_slot) {
        return None;
    }
    newest(journal, on_hand, next_slot, pc)
}

// The oldest.
pub fn oldest_at(journal: &[u8], on_hand: u32, next_slot: u32, pc: u32) -> Option<u32>
    ensures { result ≡ oldest_at_of journal.now on_hand next_slot pc }
{
    if !fits(journal, on_hand, next_slot) {
        return None;
    }
    oldest(journal, on_hand, next_slot, pc)
}
