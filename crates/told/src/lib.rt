// No code: what the crate `seek` answers, said of the states before and after the steps (proofs/).
#![tactic(auto)]
