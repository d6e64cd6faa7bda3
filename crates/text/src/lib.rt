// Numbers as text: read from a line, and laid into a buffer. Places are counted from the start of the line or of the buffer.
#![tactic(auto)]

pub mod found; // what stands at a place of a line
pub mod read; // the number at a place of a line
pub mod write; // bytes and numbers laid into a buffer, as many bytes as fit

pub use crate::found::{NoNumber, Number};
pub use crate::read::{decimal, digit, number};
pub use crate::write::{put, put_byte, put_decimal, put_digit, put_grouped, put_hex, put_signed};
