// The registers by gdb's numbers: where each stands in the image, and how it is shown and written.
#![tactic(auto)]

pub mod numbers; // the word of the image that a register is
pub mod show; // g, p: registers as digits
pub mod write; // G, P: registers written by the host, which is no step
