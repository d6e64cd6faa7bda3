// The number at a place of a line, and why none is read there.

// A number, and the place behind its last digit.
#[derive(Clone, Copy)]
pub struct Number {
    pub value: u64,
    pub to: usize,
}

#[derive(Clone, Copy)]
pub enum NoNumber {
    // Above 2^64 - 1: the place of the number's first byte.
    TooLarge(usize),
    // The place of the first byte that begins no number.
    Nothing(usize),
}
