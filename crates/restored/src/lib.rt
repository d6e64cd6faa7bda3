// No code: undoing the record of a step after that step gives the state before it, and that record is well formed (proofs/).
#![tactic(auto)]
