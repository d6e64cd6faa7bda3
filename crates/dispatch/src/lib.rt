// What a turn does, by what has happened and by what the machine did.
#![tactic(auto)]

pub mod plan; // what a turn does, and what it asks of the machine
pub mod after; // how the session goes on when the machine has worked
