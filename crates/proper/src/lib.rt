// No code: what one step decides is made of words and keeps the rules (specs/Proper.antt, proofs/Decided.antt).
#![tactic(auto)]
