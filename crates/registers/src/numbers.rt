// The numbers are gdb's own for MIPS up to 71; ours follow, as in the target description.
pub const SP: usize = 29;

pub const S8: usize = 30;

pub const RA: usize = 31;

pub const PC: usize = 37;

// How many there are.
pub const COUNT: usize = 82;

// The word of the image that register n is. Register 0 and those of the coprocessor 1 that is not there have none: they are 0 and stay so.
pub fn word_of(n: usize) -> Option<usize> {
    let k = match n {
        1..=31 => n - 1,
        32 => image::STATUS,
        33 => image::LO,
        34 => image::HI,
        35 => image::BAD_VADDR,
        36 => image::CAUSE,
        PC => image::PC,
        72 => image::NEXT_PC,
        73 => image::EPC,
        74 => image::INDEX,
        75 => image::RANDOM,
        76 => image::ENTRY_HI,
        77 => image::ENTRY_LO,
        78 => image::TIMER,
        79 => image::ON_HAND,
        80 => image::CLOCK_HIGH,
        81 => image::CLOCK_LOW,
        _ => return None,
    };
    Some(k)
}

// The host may not write steps on hand, nor the clock.
pub fn is_read_only(n: usize) -> bool {
    79 <= n
}
