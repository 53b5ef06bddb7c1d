// A request's own part, once the refusals behind 5 let it pass: what it does to the space, and the record that it
// answers.
ghost use Rattle.std.specs.Prelude.{◌≡◌, ◌<◌};
ghost use Rattle.rules.specs.Numbers.{last_clock};
ghost use Rattle.rules.specs.Notify.{notify as notify_frame};
ghost use Rattle.rules.specs.Records.{committed, plain, ticked};
ghost use Rattle.rules.specs.Requests.{frame_of, space_refusal};
ghost use Rattle.rules.specs.Step.{abort_frame};
ghost use Rattle.rules.specs.Transactions.{commit as commit_txn, create as create_frame};
ghost use Rattle.rules.specs.Words.{view};
ghost use Rattle.holds.specs.Sweep.{SameBefore};
ghost use Rattle.step.specs.Carries.{Carries};
ghost use Rattle.finish.specs.Ending.{ended, advanced};

use codec::records::{notified_record, plain_record};
use holds::endings::{abort_txn, commit_txn};
use holds::registry::register;
use holds::txns::{create_txn, remove_txn};
use rules::numbers::{KIND_ABORTED, KIND_COMMITTED, KIND_CREATED, KIND_TICKED};
use rules::{NotifyRequest, Record, Request, TxnId};
use words::rows::{Words, clock, set_clock};

// What a request does of its own: the record that it answers, and a row before which the entries are as they were.
#[derive(Clone, Copy)]
pub(crate) struct Own {
    pub(crate) answer: Record,
    pub(crate) from: usize,
}

pub(crate) fn create(space: &mut Words, party: u8, lease: u32) -> Record
    requires { space_refusal (view space.old) (frame_of (Request.Create party lease)) ≡ 0 }
    ensures { Carries (create_frame (view space.old) (frame_of (Request.Create party lease)))
        space.new result }
{
    let id = create_txn(space, party, lease);
    plain_record(KIND_CREATED, party, id)
}

// What registrations hear of it is told where the frame is finished.
#[tactic(auto, unfolding(rules::specs::Records::committed))]
pub(crate) fn commit(space: &mut Words, party: u8, id: TxnId) -> Own
    ensures { (view space.new ≡ commit_txn id.0 (view space.old))
        × (result.answer ≡ committed (frame_of (Request.Commit party id)))
        × SameBefore result.from (view space.old) (view space.new) }
{
    let from = commit_txn(space, id);
    let answer = plain_record(KIND_COMMITTED, party, id);
    Own { answer, from }
}

#[tactic(auto, unfolding(rules::specs::Step::abort_frame, rules::specs::Records::aborted))]
pub(crate) fn abort(space: &mut Words, party: u8, id: TxnId) -> Own
    ensures { Carries (abort_frame (view space.old) (frame_of (Request.Abort party id)))
        space.new result.answer
        × SameBefore result.from (view space.old) (view space.new) }
{
    let from = abort_txn(space, id);
    let answer = plain_record(KIND_ABORTED, party, id);
    Own { answer, from }
}

// A transaction that has done nothing ends: no entry changes, and nobody waits inside. The record is of the kind given.
pub(crate) fn end_idle(space: &mut Words, kind: u8, party: u8, id: TxnId) -> Record
    ensures { (view space.new ≡ ended id.0 (view space.old)) × (result ≡ plain kind party id.0) }
{
    remove_txn(space, id);
    plain_record(kind, party, id)
}

// A registration is made.
pub(crate) fn notify(space: &mut Words, q: NotifyRequest) -> Record
    requires { space_refusal (view space.old) (frame_of (Request.Notify q)) ≡ 0 }
    ensures { Carries (notify_frame (view space.old) (frame_of (Request.Notify q)))
        space.new result }
{
    let id = register(space, q);
    notified_record(q, id)
}

// The clock advances; what ends with that, ends where the frame is finished.
#[tactic(auto, unfolding(rules::specs::Records::ticked))]
pub(crate) fn advance(space: &mut Words) -> Record
    requires { (view space.old).clock < last_clock }
    ensures { (view space.new ≡ advanced (view space.old)) × (result ≡ ticked) }
{
    let t = clock(space);
    set_clock(space, t + 1);
    plain_record(KIND_TICKED, 0, TxnId::NONE)
}
