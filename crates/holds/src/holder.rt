// A transaction, and what it has of an entry.
ghost use Rattle.std.specs.Prelude.{◌≡◌, ◌≤◌, cond, eqb, not};
ghost use Rattle.rules.specs.Holds.{live_txn};
ghost use Rattle.rules.specs.Transactions.{no_txn, is_private_to, is_taken_by};
ghost use Rattle.rules.specs.Words.{view};
ghost use Rattle.available.specs.Live.{no_slot, slot_of};
ghost use Rattle.holds.specs.Sweep.{released_at, marked_at, has_part, passed};

use available::holds::{add_reader, drop_reader};
use available::live::slot_of;
use rules::bits::has_bit;
use rules::{Entry, TxnId};
use words::rows::Words;

// A transaction, with its slot among the read holders, or none where it is not live.
#[derive(Clone, Copy)]
pub(crate) struct Holder {
    pub id: TxnId,
    pub slot: u8,
    ghost low: { slot ≤ no_slot },
}

impl Holder {
    pub(crate) fn of(space: &Words, id: TxnId) -> Holder
        ensures { (result.id ≡ id) × (result.slot ≡ slot_of (live_txn id.0 (view space.now).txns)) }
    {
        Holder {
            id,
            slot: slot_of(space, id),
        }
    }

    // Whether it has written the entry, or holds it.
    pub(crate) fn has_part(self, e: Entry) -> bool
        ensures { result ≡ has_part self.id.0 self.slot e }
    {
        e.private_to == self.id || e.taken_by == self.id || has_bit(e.readers, self.slot)
    }

    // The entry, which is its own no longer and which it holds no longer.
    #[tactic(auto, unfolding(crate::specs::Sweep::released_at))]
    pub(crate) fn release(self, e: Entry) -> Entry
        ensures { result ≡ released_at self.id.0 self.slot e }
    {
        Entry {
            private_to: self.cleared(e.private_to),
            taken_by: self.cleared(e.taken_by),
            readers: drop_reader(e.readers, self.slot),
            ..e
        }
    }

    // What becomes of it when the transaction commits: what is taken goes, the rest is released.
    // Kept: two functions with one field apart: they are two rules of document 01.
    pub(crate) fn after_commit(self, e: Entry) -> Option<Entry>
        ensures { result ≡ passed (λ x. not (is_taken_by self.id.0 x)) (released_at self.id.0 self.slot) e }
    {
        (e.taken_by != self.id).then(|| self.release(e))
    }

    // When it aborts, what it has written goes.
    pub(crate) fn after_abort(self, e: Entry) -> Option<Entry>
        ensures { result ≡ passed (λ x. not (is_private_to self.id.0 x)) (released_at self.id.0 self.slot) e }
    {
        (e.private_to != self.id).then(|| self.release(e))
    }

    // A transaction's number, but 0 for its own.
    fn cleared(self, id: TxnId) -> TxnId
        ensures { result ≡ cond (eqb id.0 self.id.0) no_txn id }
    {
        if id == self.id { TxnId(0) } else { id }
    }

    // The entry as it stays once it is handed out to a look-up of the transaction.
    #[tactic(auto, unfolding(crate::specs::Sweep::marked_at))]
    pub(crate) fn mark(self, e: Entry, takes: bool) -> Entry
        ensures { result ≡ marked_at takes self.id self.slot e }
    {
        if e.private_to == self.id {
            e
        } else if takes {
            Entry {
                taken_by: self.id,
                readers: drop_reader(e.readers, self.slot),
                ..e
            }
        } else {
            Entry {
                readers: add_reader(e.readers, self.slot),
                ..e
            }
        }
    }
}
