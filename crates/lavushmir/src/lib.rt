// The public calls, for C: each takes any bytes and any numbers, and answers done or one numbered refusal.
#![tactic(auto)]

mod panel; // the five calls
