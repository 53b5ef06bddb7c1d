// A pane as a small machine: what it sends next, and what a record or a tick does to it.
ghost use Rattle.std.specs.Prelude.{◌≡◌};
ghost use Rattle.rules.specs.Template.{four_fields};
ghost use Rattle.trial.specs.Panes.{sends, hears, ticked, refused_in};

use crate::{Pane, Stage};
use rules::numbers::{
    KIND_ABORTED, KIND_COMMITTED, KIND_CREATED, KIND_EXCEPTION, KIND_FOUND, KIND_NOTHING,
    KIND_REFUSED, KIND_WAITING, KIND_WRITTEN,
};
use rules::{Fields, FindRequest, Record, Request, WriteRequest};

// The bit of a template's kind.
const KIND_MASK: u8 = 1;

// A kind, with the other fields 0.
// Kept: each field by itself: `..Fields::default()` for three zeros wants an impl of its own: no plainer.
fn of_kind(kind: u32) -> Fields
    ensures { result ≡ four_fields kind 0 0 0 }
{
    Fields {
        kind,
        side: 0,
        image: 0,
        place: 0,
    }
}

// What a pane sends next, as a party; nothing while it waits or holds.
#[tactic(auto, unfolding(crate::specs::Panes::sends))]
pub(crate) fn next_of(pane: Pane, party: u8, stage: Stage) -> Option<Request>
    ensures { result ≡ sends pane party stage }
{
    match stage {
        Stage::Creates => Some(Request::Create(party, pane.txn_lease)),
        // A take of its kind, in its transaction.
        Stage::Takes(txn) => Some(Request::Find(FindRequest {
            txn,
            party,
            takes: true,
            if_exists: false,
            mask: KIND_MASK,
            timeout: pane.timeout,
            fields: of_kind(pane.taken),
        })),
        // A write of its other kind, in its transaction.
        Stage::Holds(txn, 0) => Some(Request::Write(WriteRequest {
            txn,
            party,
            blanks: 0,
            lease: pane.lease,
            fields: of_kind(pane.written),
        })),
        Stage::Waits(_) | Stage::Holds(_, _) => None,
        Stage::Commits(txn) => Some(Request::Commit(party, txn)),
        Stage::Aborts(txn) => Some(Request::Abort(party, txn)),
    }
}

// After a refused frame: in a transaction it aborts next.
fn refused_in(stage: Stage) -> Stage
    ensures { result ≡ refused_in stage }
{
    match stage {
        Stage::Creates => Stage::Creates,
        Stage::Takes(txn)
        | Stage::Waits(txn)
        | Stage::Holds(txn, _)
        | Stage::Commits(txn)
        | Stage::Aborts(txn) => Stage::Aborts(txn),
    }
}

// After a record to it.
#[tactic(auto, unfolding(crate::specs::Panes::hears))]
pub(crate) fn hears(pane: Pane, a: Record, stage: Stage) -> Stage
    ensures { result ≡ hears pane a stage }
{
    match a.kind {
        KIND_CREATED => Stage::Takes(a.txn),
        KIND_WAITING => Stage::Waits(a.txn),
        KIND_FOUND => Stage::Holds(a.txn, pane.hold),
        KIND_NOTHING => Stage::Aborts(a.txn),
        KIND_WRITTEN => Stage::Commits(a.txn),
        KIND_COMMITTED | KIND_ABORTED | KIND_EXCEPTION => Stage::Creates,
        KIND_REFUSED => refused_in(stage),
        _ => stage,
    }
}

// A tick comes while it holds: one less to go.
#[tactic(auto, unfolding(crate::specs::Panes::ticked))]
pub(crate) fn ticked(stage: Stage) -> Stage
    ensures { result ≡ ticked stage }
{
    match stage {
        Stage::Holds(txn, ticks) => Stage::Holds(txn, ticks.saturating_sub(1)),
        _ => stage,
    }
}
