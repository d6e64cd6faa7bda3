// info clocks.
use phrase::{Decimal, Grouped, Steps, Word};
use std::fmt;

// Of a state image.
#[derive(Clone, Copy)]
pub struct Clocks<'a>(pub &'a [u8]);

impl fmt::Display for Clocks<'_> {
    fn fmt<W: fmt::Write>(&self, f: &mut fmt::Formatter<W>) -> fmt::Result {
        let image = self.0;
        let timer = image::word(image, image::TIMER);
        write!(
            f,
            "clock          {} steps since the reset\n\
            \x20              (words {} {})\n\
            timer          {}: interrupt line 2 asks in {}\n\
            time scale     {}, a word that programs can read (set by new)\n\
            printer delay  {} from a printer's command to its end (set by new)\n",
            Grouped(image::clock(image)),
            Word(image::word(image, image::CLOCK_HIGH)),
            Word(image::word(image, image::CLOCK_LOW)),
            Word(timer),
            Steps(timer as u64 + 1),
            Decimal(image::word(image, image::SCALE) as u64),
            Steps(image::word(image, image::DELAY) as u64),
        )
    }
}
