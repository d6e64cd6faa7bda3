// The index of frames (02, L6) beside any machine with words of RAM. All of it is in specs/ and proofs/.
#![tactic(auto)]
