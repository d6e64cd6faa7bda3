// What a piece of a run overwrites, beside RAM and paper, which taking back restores: the image, the index, and the slots of the journal from the next one on.
#![tactic(auto)]

ghost use Rattle.std.specs.Prelude.{◌≤◌, ◌+◌};

use journal::SLOT;
use state::IMAGE;

// The parts of the lent buffer, behind the image: the index, which has at most 16 bytes for each of 4,096 frames, and the slots.
const INDEX: usize = IMAGE;

const SLOTS: usize = INDEX + 65536;

// `count` bytes from a place of the one to a place of the other, as many as both have.
pub fn copy(from: &[u8], start: usize, to: &mut [u8], place: usize, count: usize) {
    let Some(from) = from.get(start..) else {
        return;
    };
    let Some(to) = to.get_mut(place..) else {
        return;
    };
    let n = count.min(from.len()).min(to.len());
    to[..n].copy_from_slice(&from[..n]);
}

// How many bytes of the journal from the next slot on a piece overwrites before it goes round, and how many behind that.
#[derive(Clone, Copy)]
struct Overwritten {
    at: usize,
    first: usize,
    second: usize,
    ghost whole: { first + second ≤ 16777216 },
}

// None where the journal ends before the next slot.
fn part(image: &[u8], journal: usize, steps: usize) -> Option<Overwritten> {
    let at = image::word(image, image::NEXT_SLOT) as usize % 32768 * SLOT;
    let all = steps % 32769 * SLOT;
    let first = all.min(journal.checked_sub(at)?);
    Some(Overwritten {
        at,
        first,
        second: all - first,
    })
}

// Before a piece of so many steps.
pub fn keep(image: &[u8], journal: &[u8], index: &[u8], kept: &mut [u8], steps: usize) {
    keep_image(image, kept);
    copy(index, 0, kept, INDEX, SLOTS - INDEX);
    if let Some(part) = part(image, journal.len(), steps) {
        copy(journal, part.at, kept, SLOTS, part.first);
        copy(journal, 0, kept, SLOTS + part.first, part.second);
    }
}

pub fn keep_image(image: &[u8], kept: &mut [u8]) {
    copy(image, 0, kept, 0, INDEX);
}

pub fn put_back_image(image: &mut [u8], kept: &[u8]) {
    copy(kept, 0, image, 0, INDEX);
}

// Behind the piece, once it is taken back whole: then every byte is as it was before it.
pub fn put_back(image: &mut [u8], journal: &mut [u8], index: &mut [u8], kept: &[u8], steps: usize) {
    put_back_image(image, kept);
    copy(kept, INDEX, index, 0, SLOTS - INDEX);
    if let Some(part) = part(image, journal.len(), steps) {
        copy(kept, SLOTS, journal, part.at, part.first);
        copy(kept, SLOTS + part.first, journal, 0, part.second);
    }
}
