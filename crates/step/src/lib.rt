// One step: the tick, the decision and its effect on the parts that the run loop holds.
#![tactic(auto)]

pub mod ahead; // the core as the next tick will leave it
pub mod apply; // the effect on registers, RAM, the core and the board
pub mod saved; // what a record keeps of the effect
pub mod tick; // the clock group, Random, and the interrupt lines
