// The eight printers of line 6: ticks, commands, and what a record keeps to take a tick back.
// Paper is lent beside them: printer n's eighth starts at n * (length / 8).
#![tactic(auto)]

pub mod cause;
pub mod command;
pub mod rules;
pub mod saved;
pub mod tick;

// STATUS, by the manual's 5.6.
pub const READY: u32 = 1;

pub const ILLEGAL: u32 = 2;

pub const BUSY: u32 = 3;

pub const PRINT_ERROR: u32 = 4;

// COMMAND.
pub const RESET: u32 = 0;

pub const ACK: u32 = 1;

pub const PRINTCHR: u32 = 2;

// One that is not installed is all 0.
#[derive(Clone, Copy, PartialEq, Eq, Default)]
pub struct Printer {
    pub status: u32,
    pub command: u32,
    pub data0: u32,
    // Ticks left while busy.
    pub left: u32,
    // Bytes printed in its eighth.
    pub count: u32,
}

// What a tick and a command change, paper aside.
// Stays: beside the disks' own Line, since no generic struct holds an array of its parameter.
#[derive(Clone, Copy)]
pub struct Line {
    pub printers: [Printer; 8],
    pub pending: u32,
}
