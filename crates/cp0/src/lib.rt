// Coprocessor 0: its registers and what reads, writes and moves them. The translation table is not here.
#![tactic(auto)]

pub mod entry; // exception entry, and its vector
pub mod interrupt; // IP and IM: whether a step is interrupt entry, and a line turned on or off
pub mod privilege; // KUc, VMc and CU[0]
pub mod random; // Random's move in each step
pub mod registers; // the eight registers, MFC0 and MTC0
pub mod status; // the two stacks of Status
