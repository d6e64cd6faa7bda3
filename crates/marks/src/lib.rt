// What a step and a step taken back change in the index of document 02, L6. The entries and their bytes are `frames`.
#![tactic(auto)]

pub mod onward; // a step: the oldest record drops off, then the word written is marked
pub mod backward; // a step taken back: the entry before it comes back
