// What the machine would read, and where an address lands, by the machine of an image.
#![tactic(auto)]

pub mod address; // where an address lands
pub mod reading; // what the machine would read there
