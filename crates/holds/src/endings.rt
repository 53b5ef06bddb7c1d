// The ends of transactions, and look-ups that leave.
ghost use Rattle.std.specs.Prelude.{◌≡◌, not};
ghost use Rattle.rules.specs.Closing.{is_over};
ghost use Rattle.rules.specs.Lists.{filterb};
ghost use Rattle.rules.specs.State.{with_waits};
ghost use Rattle.rules.specs.Words.{view};
ghost use Rattle.rules.specs.Transactions.{commit, abort};
ghost use Rattle.holds.specs.Sweep.{SameBefore};

use crate::holder::Holder;
use crate::sweep::pass_over;
use crate::txns::remove_txn;
use available::find::is_over;
use rules::{LookUp, TxnId};
use words::rows::{Words, retain_rows};

// Look-ups whose deadline is reached, or that wait in vain, leave; the others wait on, in order of arrival.
pub fn leave_over(space: &mut Words)
    ensures { view space.new
        ≡ with_waits (filterb (λ w. not (is_over (view space.old) w)) (view space.old).waits)
        (view space.old) }
{
    retain_rows::<LookUp, _>(space, |s, w| !is_over(s, w));
}

// Private entries become committed, take-held ones are removed, read holds go. The row is returned from which on
// entries change.
pub fn commit_txn(space: &mut Words, id: TxnId) -> usize
    ensures { (view space.new ≡ commit id.0 (view space.old))
        × SameBefore result (view space.old) (view space.new) }
{
    let holder = Holder::of(space, id);
    let first = pass_over(space, |e| holder.has_part(e), |e| holder.after_commit(e));
    remove_txn(space, id);
    first
}

// Private entries are removed, both kinds of hold go; a look-up that waits inside is closed. The row is returned from
// which on entries change.
pub fn abort_txn(space: &mut Words, id: TxnId) -> usize
    ensures { (view space.new ≡ abort id.0 (view space.old))
        × SameBefore result (view space.old) (view space.new) }
{
    let holder = Holder::of(space, id);
    let first = pass_over(space, |e| holder.has_part(e), |e| holder.after_abort(e));
    retain_rows::<LookUp, _>(space, |_, w| w.txn != id);
    remove_txn(space, id);
    first
}
