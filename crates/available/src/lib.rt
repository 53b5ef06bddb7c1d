// Which entries match, are visible, available or in conflict, by the live transactions and their holds: searches, which
// change nothing.
#![tactic(auto)]

pub mod asked;
pub mod find;
pub mod holds;
pub mod live;
