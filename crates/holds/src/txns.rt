// Transactions made and removed.
ghost use Rattle.std.specs.Prelude.{◌≡◌, ◌<◌, eqb};
ghost use Rattle.rules.specs.declared.Request.TheVariants.{Create};
ghost use Rattle.rules.specs.Lists.{anyb};
ghost use Rattle.rules.specs.State.{with_txns};
ghost use Rattle.rules.specs.Template.{bit};
ghost use Rattle.rules.specs.Requests.{frame_of};
ghost use Rattle.rules.specs.Transactions.{free_slot, create, without_txn};
ghost use Rattle.rules.specs.Words.{view};
ghost use Rattle.available.specs.Live.{no_slot};
ghost use Rattle.holds.specs.Txns.{Creatable};

use available::holds::add_reader;
use available::live::NO_SLOT;
use rules::bits::has_bit;
use rules::{Txn, TxnId};
use words::rows::{
    Words, add_row, clock, next_number, retain_rows, row_at, row_count, set_next_number,
};
use words::time::end_of;

// The slots of the live transactions, as bits.
pub(crate) fn used_slots(space: &Words) -> u8
    ensures { (p : _) → bit p result ≡ anyb (λ t. eqb t.slot p) (view space.now).txns }
{
    let mut used = 0;
    for i in 0..row_count::<Txn>(space) {
        let t = row_at::<Txn>(space, i);
        used = add_reader(used, t.slot);
    }
    used
}

// The first of the eight slots that no live transaction has; 0 where there is none.
pub(crate) fn free_slot(space: &Words) -> u8
    ensures { (result ≡ free_slot (view space.now).txns) × (result < no_slot) }
{
    let used = used_slots(space);
    (0..NO_SLOT).find(|slot| !has_bit(used, *slot)).unwrap_or(0)
}

// A transaction of the party's is made, with the next number and a free slot.
pub fn create_txn(space: &mut Words, party: u8, lease: u32) -> TxnId
    requires { Creatable (view space.old) lease }
    ensures made { view space.new
        ≡ (create (view space.old) (frame_of (Create party lease))).model }
    ensures numbered { result.0 ≡ (view space.old).next_txn }
{
    let n = next_number::<Txn>(space);
    let txn = Txn {
        id: TxnId(n),
        party,
        end: end_of(clock(space), lease),
        slot: free_slot(space),
    };
    add_row(space, txn);
    set_next_number::<Txn>(space, n + 1);
    txn.id
}

// The transaction is live no longer.
pub fn remove_txn(space: &mut Words, id: TxnId)
    ensures { view space.new
        ≡ with_txns (without_txn id.0 (view space.old).txns) (view space.old) }
{
    retain_rows::<Txn, _>(space, |_, t| t.id != id);
}
