// What the integer instructions of MIPS I compute, on words. What a signed instruction means is said in ℤ, in specs/.
#![tactic(auto)]

pub mod sum; // ADD, SUB and their overflow, ADDU, SUBU; SLT, SLTU; with immediates too
pub mod logic; // AND, OR, XOR, NOR; ANDI, ORI, XORI; LUI
pub mod shift; // SLL, SRL, SRA, also by a register
pub mod extend; // a byte, a half or a 16-bit immediate to a word
pub mod condition; // what BEQ, BNE, BLEZ, BGTZ, BLTZ and BGEZ test
pub mod jumps; // where branches and jumps go, and the link
pub mod product; // MULT, MULTU
pub mod quotient; // DIV, DIVU
pub mod merge; // LWL, LWR, SWL, SWR: a part of a word
