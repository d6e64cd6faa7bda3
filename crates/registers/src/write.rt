// G, P: registers written by the host. That is no step, so whoever writes empties the journal behind it; see the crate host.
use crate::numbers::{COUNT, PC, is_read_only, word_of};
use state::IMAGE;
use word::big::put_word;

// A word of the image; nothing where there is no such word.
fn set(image: &mut [u8], k: usize, value: u32) {
    if (image::WORDS <= k) | (image.len() != IMAGE) {
        return;
    }
    put_word(image, 4 * k + 5, value);
}

// PC takes next PC and the slot with it: the machine goes on from there.
fn jump(image: &mut [u8], value: u32) {
    set(image, image::PC, value);
    set(image, image::NEXT_PC, value.wrapping_add(4));
    set(image, image::SLOT_FLAG, 0);
    set(image, image::BRANCH, 0);
}

// Register n takes a value. One that it has changes nothing, so that a jump to PC keeps a slot. Answers whether something changed.
pub fn one(image: &mut [u8], n: usize, value: u64) -> bool {
    let Some(k) = word_of(n) else {
        return false;
    };
    let value = (value % 0x1_0000_0000) as u32;
    if image::word(image, k) == value {
        return false;
    }
    if n == PC {
        jump(image, value);
        return true;
    }
    set(image, k, value);
    true
}

// From the digits of a packet; 0 where eight digits do not stand there.
fn from_packet(image: &mut [u8], packet: &[u8], n: usize) -> bool {
    if is_read_only(n) {
        return false;
    }
    let value = base16::word(packet, n % COUNT * 8 + 1).unwrap_or(0);
    one(image, n, value as u64)
}

// Behind `G`: all but those that are only read. Answers whether something changed.
pub fn all(image: &mut [u8], packet: &[u8]) -> bool {
    let mut changed = false;
    for n in 0..COUNT {
        changed |= from_packet(image, packet, n);
    }
    changed
}
