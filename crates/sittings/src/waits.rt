// The waits of the parties while a tray is run.
ghost use Rattle.std.specs.Prelude.{◌≡◌, ◌-◌, [], ◌∷◌};
ghost use Rattle.demands.specs.Answers.{closes};
ghost use Rattle.sittings.specs.Watch.{heard_of, wait_after};

use crate::figures::Figures;
use rules::numbers::{KIND_ABORTED, KIND_EXCEPTION, KIND_FOUND, KIND_NOTHING, MAX_PARTY};
use rules::{Record, TxnId};

// A look-up that waits: since which clock, and in which transaction.
#[derive(Clone, Copy)]
pub struct Wait {
    pub since: u32,
    pub txn: TxnId,
}

// Of each party the wait that is open, at the party's number; the one at 0 is nobody's.
pub type Waits = [Option<Wait>; WAITS];

pub const WAITS: usize = MAX_PARTY as usize + 1;

impl Wait {
    // Its ticks up to a clock.
    pub(crate) fn ticks(self, clock: u32) -> u32
        ensures { result ≡ clock - self.since }
    {
        clock.saturating_sub(self.since)
    }

    // Whether a record of the party that waits closes it.
    fn is_closed_by(self, a: Record) -> bool
        ensures { result ≡ closes a.party self.txn.0 a }
    {
        a.txn == self.txn
            && matches!(
                a.kind,
                KIND_FOUND | KIND_NOTHING | KIND_EXCEPTION | KIND_ABORTED
            )
    }
}

// What a record adds to its party's figures, and what it leaves of its party's wait.
pub(crate) fn heard(wait: Option<Wait>, a: Record, clock: u32) -> (Figures, Option<Wait>)
    ensures figures { result.0 ≡ heard_of a.party clock wait (a ∷ []) }
    ensures left { result.1 ≡ wait_after a.party wait (a ∷ []) }
{
    let founds = u32::from(a.kind == KIND_FOUND);
    match wait {
        Some(open) if open.is_closed_by(a) => {
            let more = Figures {
                founds,
                ..Figures::of_wait(open.ticks(clock))
            };
            (more, None)
        }
        _ => {
            let more = Figures {
                founds,
                ..Figures::default()
            };
            (more, wait)
        }
    }
}
