// The eight disks of line 3: their tick in number order, writes to them, the rules of the line, and taking a tick back. RAM and each disk's bytes are lent beside them.
#![tactic(auto)]

pub mod cause;
pub mod command;
pub mod rules;
pub mod saved;
pub mod tick;
pub mod words;

use disk::Disk;

// What a tick and a command change, RAM and the disks' bytes aside.
#[derive(Clone, Copy)]
pub struct Line {
    pub disks: [Disk; 8],
    pub pending: u32,
}
