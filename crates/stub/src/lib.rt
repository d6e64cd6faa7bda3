// The words of a session with gdb, what a turn wants next, and the numbers in a packet.
#![tactic(auto)]

pub mod kinds; // what some of the words number: modes, signals, lines for standard error
pub mod packet; // the numbers that a packet has
pub mod words; // the words, and where each stands

use crate::kinds::Signal;

// What came of a packet.
#[derive(Clone, Copy)]
pub enum Next {
    // The reply has so many bytes.
    Reply(usize),
    // The machine runs; the reply comes when it stops.
    Run,
    // The machine stopped with a signal.
    Stopped(Signal),
    // It stopped before a store to a watched byte, at this address.
    Watched(u32),
    // It stands where the journal begins.
    Begins,
    // The station is saved, and then the reply is OK.
    Detach,
    // The session ends without saving.
    Kill(usize),
}
