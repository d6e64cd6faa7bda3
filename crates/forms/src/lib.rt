// The forms of the station's language, and what they hold: those that several commands share, and those of `new`, `x` and `help`.
#![tactic(auto)]

pub mod kinds; // what commands hold
pub mod form; // the forms that several commands share
pub mod fresh; // the form of `new`
pub mod look; // the forms of `x` and `xp`
pub mod help; // the forms of `help`
