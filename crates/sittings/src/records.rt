// What is told by a step's records, and by its frame.
ghost use Rattle.std.specs.Prelude.{◌≡◌, ◌≤◌, ◌&&◌, nat_eq, nat_le};
ghost use Rattle.rules.specs.Numbers.{step_records, max_party};
ghost use Rattle.rules.specs.Frame.{is_look_up};
ghost use Rattle.rules.specs.SerialRun.{was_refused};
ghost use Rattle.demands.specs.WaitingList.{number};
ghost use Rattle.sittings.specs.Watch.{Stand};

use codec::record_at;
use rules::numbers::{KIND_REFUSED, MAX_PARTY, OP_READ, OP_TAKE_IF_EXISTS, RECORD_SIZE};

pub(crate) fn is_look_up(op: u8) -> bool
    ensures { result ≡ is_look_up op }
{
    OP_READ <= op && op <= OP_TAKE_IF_EXISTS
}

pub(crate) fn is_party(party: u8) -> bool
    ensures { result ≡ (nat_le 1 party && nat_le party max_party) }
{
    1 <= party && party <= MAX_PARTY
}

// How many of a step's records are of a kind.
pub(crate) fn count_of(answers: &[u8], n: usize, kind: u8) -> u32
    requires { n ≤ step_records }
    ensures { ((rs : _) → Stand answers.now n rs → result ≡ number (λ a. nat_eq a.kind kind) rs)
        × (result ≤ n) }
{
    let mut count = 0;
    // Kept: a sum by hand, since `filter` and `count` over the places were tried, and the proof did not close.
    for i in 0..n {
        let a = record_at(answers, RECORD_SIZE * i);
        count += u32::from(a.kind == kind);
    }
    count
}

// Whether a step's frame was refused: there is no record, or the first is of kind 15.
pub(crate) fn is_refused(answers: &[u8], n: usize) -> bool
    ensures { (rs : _) → Stand answers.now n rs → result ≡ was_refused rs }
{
    n == 0 || record_at(answers, 0).kind == KIND_REFUSED
}
