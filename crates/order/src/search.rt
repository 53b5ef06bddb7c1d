// The first order that goes through, position by position.
ghost use Rattle.std.specs.Prelude.{◌≡◌, ◌≤◌, ◌<◌, MatchOption};
ghost use Rattle.order.specs.Search.{after_txn, NoneGoes, FirstGoes};

use crate::action::Kind;
use crate::plan::Plan;
use crate::read::{MAX_TXNS, SLOTS};

impl Plan {
    // What is present once the transaction at position p is carried out; none if an action's entry is missing. A read
    // leaves its entry present, as it is.
    fn run(&self, p: usize, start: [bool; SLOTS]) -> Option<[bool; SLOTS]>
        requires { p < self.now.n }
        ensures { result ≡ after_txn self.now.steps self.now.starts p start }
    {
        let mut present = start;
        for step in &self.steps[self.starts[p]..self.starts[p + 1]] {
            let slot = usize::from(step.slot);
            if step.kind != Kind::Write && !present[slot] {
                return None;
            }
            present[slot] = step.kind != Kind::Take;
        }
        Some(present)
    }

    // Of the transactions d are placed, and those that are `left` follow on what is present: each in its turn, and no
    // order is looked at whose beginning fails. The order found stands from d on.
    pub(crate) fn search(
        &self,
        d: usize,
        left: [bool; MAX_TXNS],
        present: [bool; SLOTS],
    ) -> Option<[u8; MAX_TXNS]>
        requires { d ≤ self.now.n }
        ensures { MatchOption result (NoneGoes self.now.steps self.now.starts self.now.n d left present)
            (λ order. FirstGoes self.now.steps self.now.starts self.now.n d left present order) }
    {
        if d == self.n {
            return Some([0; MAX_TXNS]);
        }
        for p in 0..self.n {
            if !left[p] {
                continue;
            }
            let Some(after) = self.run(p, present) else {
                continue;
            };
            let mut rest = left;
            rest[p] = false;
            if let Some(mut order) = self.search(d + 1, rest, after) {
                order[d] = p as u8;
                return Some(order);
            }
        }
        None
    }
}
