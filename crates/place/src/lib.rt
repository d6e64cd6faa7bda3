// No code: where a line is refused (proofs/Refused.antt).
#![tactic(auto)]
