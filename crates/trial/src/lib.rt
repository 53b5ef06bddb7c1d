// Trial panes: what designers try leases with.
#![tactic(auto)]

mod hearing;
mod machine;
mod rounds;
mod setup;

ghost use Rattle.trial.specs.Trial.{Tried};

use crate::rounds::count_trial;
use crate::setup::Setup;
use rules::TxnId;

// A pane's own leases, timeout, kinds and hold.
#[derive(Clone, Copy)]
pub struct Pane {
    pub txn_lease: u32,
    pub timeout: u32,
    // The kind that it takes.
    pub taken: u32,
    // The lease of what it writes, and its kind.
    pub lease: u32,
    pub written: u32,
    pub hold: u32,
}

// What a pane does next.
#[derive(Clone, Copy, Default)]
pub enum Stage {
    #[default]
    Creates,
    Takes(TxnId),
    Waits(TxnId),
    // It holds for so many ticks, then writes.
    Holds(TxnId, u32),
    Commits(TxnId),
    Aborts(TxnId),
}

// A pane on its way: what it does next, and what has been counted of it.
#[derive(Clone, Copy, Default)]
pub struct Progress {
    pub stage: Stage,
    pub commits: u32,
    pub exceptions: u32,
    pub nothings: u32,
}

// A refusal's number stands above the lower 16 bits of what is returned.
const NUMBER: u64 = 65536;

// Kept: a number, since the space hands it on to C as it is.
pub fn run(setup: &[u32], counts: &mut [u32]) -> u64
    ensures { Tried setup.now counts.old result counts.new }
{
    match Setup::read(setup, counts.len()) {
        Ok(setup) => {
            count_trial(&setup, counts);
            0
        }
        Err(refused) => NUMBER * u64::from(refused.number()),
    }
}
