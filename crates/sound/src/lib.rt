// That every space is sound which frames make has proofs, and no code.
#![tactic(auto)]
