// The live transactions.
ghost use Rattle.std.specs.Prelude.{◌≡◌, ◌≤◌};
ghost use Rattle.rules.specs.Words.{view};
ghost use Rattle.available.specs.Live.{Finds, no_slot, slot_of};
ghost use Rattle.rules.specs.Holds.{live_txn};

use rules::numbers::MAX_TXNS;
use rules::{Txn, TxnId};
use words::iter::rows;
use words::rows::Words;

// No slot, as a number: slots are below it.
// Kept: no Option: it would add a case to `free_but` and save none in `add_reader` and `drop_reader`.
pub const NO_SLOT: u8 = MAX_TXNS as u8;

// The live transaction with a number.
pub fn find_txn(space: &Words, id: TxnId) -> Option<Txn>
    ensures { Finds space.now id.0 result }
{
    rows::<Txn>(space).find(|t| t.id == id)
}

// The slot of a live transaction among the read holders, or none where the number is none's.
pub fn slot_of(space: &Words, id: TxnId) -> u8
    ensures { (result ≡ slot_of (live_txn id.0 (view space.now).txns)) × (result ≤ no_slot) }
{
    find_txn(space, id).map_or(NO_SLOT, |t| t.slot)
}
