// What is known of a space beside its words, so that a step need not look for it: a tick before which nothing ends, the
// greatest number of a transaction that has done anything, and who may wait.
#![tactic(auto)]

pub mod known;
pub mod renew;
