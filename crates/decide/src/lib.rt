// What one step does, decided from the state after the tick and written nowhere.
#![tactic(auto)]

pub mod effect; // what a step changes
pub mod fetch; // the word at PC
pub mod lent; // the word around a place of the lent bytes
mod part; // bytes and halves of a word
mod settle; // an intent to its decision
pub mod step; // interrupt or fetch, and then the instruction
