// The records of the newest steps, looked at for a stop: a breakpoint, a PC outside of the range of a range step, or a store that changes a watched byte.
#![tactic(auto)]

pub mod says; // what the record of a step says
pub mod watched; // whether a record is a store that changes a watched byte
pub mod forward; // the first stop among some steps that were run
pub mod backward; // the newest stop among the steps on hand

// Where a run stops, in either direction.
#[derive(Clone, Copy)]
pub struct Stop {
    // So many of the newest steps lie behind it.
    pub steps: usize,
    // The address of a watched byte that the next step would change. None: it stops for its PC.
    pub watch: Option<u32>,
}
