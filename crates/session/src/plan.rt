// What a turn asks of the machine, or what it does without it.
use crate::turn::Turn;
use crate::work::Work;

#[derive(Clone, Copy)]
pub enum Plan {
    Works(Work),
    Turns(Turn),
}
