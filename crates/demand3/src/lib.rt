// No code: demand 3, over the bytes that the host lends (specs/Demand3.antt), and its theorem (proofs/Demand3.antt).
#![tactic(auto)]
