// No code: what the slot flag says after a step, and that an exception in a slot goes back to the branch (specs/Delay.antt, proofs/Told.antt, proofs/Again.antt).
#![tactic(auto)]
