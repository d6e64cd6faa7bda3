// The record of a step: what the step overwrites, as a value and as the 512 bytes of a journal's slot (docs/RECORD.md).
#![tactic(auto)]

pub mod decode; // from bytes to a record
pub mod encode; // from a record to bytes
pub mod keeps; // whether bytes keep the layout

use printer::Printer;
use printer::saved::SavedPaper;
use state::machine::Core;
use tlb::Row;

// The words of a record that are also asked for one by one: where PC stands, the kind of what was saved, and of a word of RAM its place and old value.
pub const PC: usize = 2;

pub const KIND: usize = 59;

pub const PLACE: usize = 60;

pub const OLD: usize = 61;

// The kinds of what was saved.
pub const NOTHING: u32 = 0;

pub const REGISTER: u32 = 1;

pub const TLB_ROW: u32 = 2;

pub const RAM: u32 = 3;

// What the step's effect overwrites beside the small words.
#[derive(Clone, Copy)]
pub enum Saved {
    Nothing,
    // its number and old value
    Register(u32, u32),
    // its index and old words
    TlbRow(u32, Row),
    // its place and old word, and a distance of 16 bits that the run gives
    RamWord(u32, u32, u32),
}

// All as it was before the step. The clock needs no room, since it goes down by one; on hand and next slot never come from a record.
#[derive(Clone, Copy)]
pub struct Record {
    pub core: Core,
    pub timer: u32,
    pub pending: u32,
    pub paper: SavedPaper,
    pub saved: Saved,
    pub printers: [Printer; 8],
}
