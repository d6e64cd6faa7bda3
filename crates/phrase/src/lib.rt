// What lines of a screen are made of: a page, which `write!` lays text into, and values as they are shown.
#![tactic(auto)]

mod page; // a lent buffer with a place in it
mod number; // numbers as they are shown
mod name; // registers, exceptions, printers and interrupt lines in words

pub use crate::name::{
    Character, Command, Exception, InterruptLines, PrinterStatus, Register, YesNo,
};
pub use crate::number::{Address, Byte, Decimal, Grouped, Half, Signed, Steps, Word};
pub use crate::page::{Page, lay};
