// The words of the device area, by their offset from its start: the bus registers and maps of the manual's 5.2, and the device registers.
#![tactic(auto)]

pub mod offset; // which register an offset names
pub mod read; // LW in the device area
pub mod store; // SW in the device area
