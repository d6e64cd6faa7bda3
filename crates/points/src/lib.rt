// Breakpoints and watches, in the words of a session.
#![tactic(auto)]

pub mod breaks; // breakpoints: on a virtual PC, whatever the mode or ASID
pub mod watches; // watches: some bytes from a virtual address on, and where they lie in RAM
