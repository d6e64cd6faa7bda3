// No code: a step keeps what holds of every state that a run meets (specs/Good.antt, proofs/Keeps.antt).
#![tactic(auto)]
