// What a technician does with a station: each command, in its turns. A turn is planned, the machine works, and then the session goes on.
#![tactic(auto)]

pub mod running; // run, stepi
pub mod load; // load, compare
pub mod make; // new
pub mod save; // save, quit, restore
pub mod paper; // paper
