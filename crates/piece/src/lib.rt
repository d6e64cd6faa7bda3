// How far a form of the station's language fits a line, and the pieces that forms are made of.
#![tactic(auto)]

pub mod mark; // the mark, and the pieces: a gap, a word, a number, a name, the line's end
pub mod behind; // two pieces together: what stands behind a gap
