// Who holds what: hand-outs, passes over the entries, transactions and registrations made and ended.
#![tactic(auto)]

pub mod endings;
pub mod hand;
pub(crate) mod holder;
pub mod registry;
pub mod renew;
pub(crate) mod search;
pub mod sweep;
pub mod txns;
