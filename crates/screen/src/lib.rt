// What a person sees, as values that display themselves. A screen has at most 80 columns.
#![tactic(auto)]

pub mod tables; // info registers, info tlb, info printers
pub mod cp0_words; // info cp0
pub mod clocks; // info clocks
pub mod sizes; // info station
pub mod paper; // what a printer printed
pub mod bad; // a line that is no command
pub mod memory_units; // x: a unit of memory
mod field; // fields of words
