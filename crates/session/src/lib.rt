// The words that a session is made of, what has happened, what a turn does and what it answers.
#![tactic(auto)]

pub mod words; // the words
pub mod mode; // what the session is in the middle of
pub mod event; // what has happened
pub mod exit; // exit statuses
pub mod work; // what a turn asks of the machine, and what came of it
pub mod turn; // what a turn shows, and how it ends
pub mod plan; // what a turn asks of the machine, or does without it
pub mod ending; // how a turn ends, and what it answers
