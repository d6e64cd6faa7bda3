// Numbers of 8, 16 and 32 bits: bytes, bits, and (in specs/ and proofs/) signed meaning and the laws over the width.
#![tactic(auto)]

pub mod big; // words as bytes, most significant first
pub mod map; // one bit of a word
pub mod mask; // a word written under a mask
