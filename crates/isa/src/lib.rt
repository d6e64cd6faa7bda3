// The instructions of MIPS I and of CP0, out of a 32-bit word. Each word is one `Instr`; unused fields are ignored.
#![tactic(auto)]

pub mod instr; // what a word can say: formats, and their small operation enums
pub mod decode; // a word to an `Instr`, by opcode
mod special; // the SPECIAL and REGIMM codes
mod control; // the COP0 codes
