// One step back: whether a record is well formed, and what undoing it does. The check needs no byte of RAM or paper.
#![tactic(auto)]

pub mod back; // a record undone
pub mod fit; // whether a record is well formed
