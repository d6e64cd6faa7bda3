// info station: how large everything is that the station has.
use journal::SLOT;
use phrase::{Grouped, Steps};
use std::fmt;

// In bytes.
#[derive(Clone, Copy)]
pub struct Lengths {
    pub execution: usize,
    pub bootstrap: usize,
    pub ram: usize,
    pub paper: usize,
    pub journal: usize,
}

#[derive(Clone, Copy)]
pub struct Sizes<'a> {
    pub image: &'a [u8],
    pub lengths: Lengths,
}

impl fmt::Display for Sizes<'_> {
    fn fmt<W: fmt::Write>(&self, f: &mut fmt::Formatter<W>) -> fmt::Result {
        let lengths = self.lengths;
        write!(
            f,
            "execution ROM  {} bytes from 0x00000000\n\
            bootstrap ROM  {} bytes from 0x1fc00000, where a reset starts\n\
            RAM            {} bytes from 0x20000000: {} frames of 4,096\n\
            paper          {} bytes: {} for each of 8 printers\n\
            journal        room for {}; on hand now, and to be taken back: {}\n",
            Grouped(lengths.execution as u64),
            Grouped(lengths.bootstrap as u64),
            Grouped(lengths.ram as u64),
            Grouped(lengths.ram as u64 / 4096),
            Grouped(lengths.paper as u64),
            Grouped(lengths.paper as u64 / 8),
            Steps((lengths.journal / SLOT) as u64),
            Grouped(image::word(self.image, image::ON_HAND) as u64),
        )
    }
}
