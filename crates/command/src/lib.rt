// A line of the station's language as a command.
#![tactic(auto)]

pub mod kinds; // the commands
pub mod table; // the table of all forms
pub mod read; // a line as a command

pub use crate::kinds::Command;
pub use crate::read::command;
pub use forms::kinds::{Format, Fresh, Look, Span, Topic, Unit};
