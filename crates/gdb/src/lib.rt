// gdb's remote protocol. A turn of a session hears at most one packet, the machine does what that asks for or runs one piece, and gdb is told what came of it.
#![tactic(auto)]

pub mod hear; // what a turn has to do
pub mod tell; // what gdb is told of it

// What a turn has to do.
#[derive(Clone, Copy)]
pub enum Task {
    // A packet of so many bytes is answered; whether it is acknowledged.
    Answer(usize, bool),
    // The machine runs a piece.
    Piece,
    // gdb wants the run to stop.
    Stop,
    // There is nothing to be said.
    GoOn,
    // More input is wanted.
    Wait,
    // The last reply is asked for once more.
    Again,
    // What came is no packet.
    Damaged,
    // The station is saved, or could not be.
    Saved(bool),
    // The input has ended.
    Finish,
}

// What has happened.
#[derive(Clone, Copy, PartialEq, Eq)]
enum Event {
    Interrupt,
    EndOfInput,
    Saved,
    Other,
}

impl From<u64> for Event {
    // By the numbers of include/station.h.
    fn from(number: u64) -> Event {
        match number {
            3 => Event::Interrupt,
            4 => Event::EndOfInput,
            8 => Event::Saved,
            _ => Event::Other,
        }
    }
}
