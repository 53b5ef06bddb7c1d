// The plan of a search: each action with its number's slot. A number's slot is where it stands first among those handed
// in, so that the search compares no numbers.
ghost use Rattle.std.specs.Prelude.{◌≡◌, ℕ, ◌+◌, ◌≤◌, ◌<◌, get_or, length, MatchOption, position, ◌==◌};
ghost use Rattle.order.specs.Reading.{slots, max_txns};
ghost use Rattle.order.specs.Plan.{AllPlaced, Resolved, WrittenTwice, Planned, Unplanned};

use crate::action::{Action, Kind};
use crate::read::{MAX_TXNS, SLOTS, read_export};

#[derive(Clone, Copy)]
pub(crate) struct Step {
    pub(crate) kind: Kind,
    pub(crate) slot: u8,
}

// The steps of n transactions, laid out as in `Export`: every slot and every start lies within its array.
// Kept: arrays with a count beside, since nothing is allocated.
#[derive(Clone, Copy)]
pub(crate) struct Plan {
    pub(crate) n: usize,
    pub(crate) steps: [Step; SLOTS],
    pub(crate) starts: [usize; MAX_TXNS + 1],
    ghost few: { n ≤ max_txns },
    ghost placed: { AllPlaced steps },
    ghost within: { (p : ℕ) → get_or starts p 0 ≤ slots },
    ghost ordered: { (p : ℕ) → p < n → get_or starts p 0 ≤ get_or starts (p + 1) 0 },
}

// Where a number stands first.
fn first_place(actions: &[Action], number: u32) -> Option<usize>
    ensures { result ≡ position (λ a. a.number == number) actions.now }
{
    actions.iter().position(|action| action.number == number)
}

// The actions' steps; none if a number is written twice.
fn resolve(actions: &[Action]) -> Option<[Step; SLOTS]>
    requires { length actions.now ≤ slots }
    ensures { MatchOption result (WrittenTwice actions.now) (λ steps. Resolved actions.now steps) }
{
    let mut written = [false; SLOTS];
    // Kept: a filler, since no kind of action is the usual one, as a Default would say.
    let none = Step {
        kind: Kind::Write,
        slot: 0,
    };
    let mut steps = [none; SLOTS];
    for (j, action) in actions.iter().enumerate() {
        let slot = first_place(&actions[..j], action.number).unwrap_or(j);
        let again = written[slot];
        let writes = action.kind == Kind::Write;
        if writes && again {
            return None;
        }
        written[slot] = writes | again;
        steps[j] = Step {
            kind: action.kind,
            slot: slot as u8,
        };
    }
    Some(steps)
}

impl Plan {
    // The plan of what is handed in. Never inlined, so that the stack it takes is free again before the search.
    #[inline(never)]
    pub(crate) fn of(words: &[u32]) -> Option<Plan>
        ensures { MatchOption result (Unplanned words.now)
            (λ plan. Planned words.now plan.n plan.steps plan.starts) }
    {
        let export = read_export(words)?;
        let n = export.n;
        let starts = export.starts;
        let steps = resolve(&export.actions[..starts[n]])?;
        Some(Plan { n, steps, starts })
    }
}
