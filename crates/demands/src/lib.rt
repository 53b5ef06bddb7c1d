// The demands have statements (specs/) and theorems (proofs/), and no code.
#![tactic(auto)]
