// g, p: registers as digits.
use crate::numbers::{COUNT, word_of};
use base16::put_word;

// One register.
pub fn one(out: &mut [u8], at: usize, image: &[u8], n: usize) -> usize {
    let value = word_of(n).map_or(0, |k| image::word(image, k));
    put_word(out, at, value as u64)
}

// All of them, in the order of their numbers.
pub fn all(out: &mut [u8], image: &[u8]) -> usize {
    let mut next = 0;
    for n in 0..COUNT {
        next = one(out, next, image, n);
    }
    next
}
