// The physical address map, and the two public calls that look into the ROMs.
#![tactic(auto)]

pub mod places; // which area a physical address lies in, and where there
pub mod rom; // the four bytes at a physical address of a ROM, or why there are none
