// No code: document 01's marked examples as one table (specs/Marked.antt) and the one statement that all of them hold (proofs/Hold.antt).
#![tactic(auto)]
