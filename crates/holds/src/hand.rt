// An entry is handed out, by the row where it was found.
ghost use Rattle.std.specs.Prelude.{◌≡◌, ◌<◌, length};
ghost use Rattle.rules.specs.Words.{view, entry_count, space_words};
ghost use Rattle.tables.specs.Rows.{entry_row};
ghost use Rattle.holds.specs.Hand.{handed_at};

use crate::holder::Holder;
use available::live::NO_SLOT;
use rules::{Entry, LookUp};
use words::rows::{Words, remove_row, set_row};

// The entry of the row is handed out to the look-up: it goes, or gets the mark of a read or of a take. A read outside
// transactions leaves none.
// Kept: row and entry are two: service has them from its own loop, and a pair would be built there to be taken apart.
// Inlined: entry and look-up need not be laid out in memory for a call.
#[inline(always)]
pub fn hand_out(space: &mut Words, row: usize, e: Entry, w: LookUp)
    requires { (row < entry_count space.old) × (e ≡ entry_row space.old row) }
    ensures { (view space.new ≡ handed_at w e row (view space.old))
        × (length space.new ≡ space_words) }
{
    let LookUp { takes, txn, .. } = w;
    if takes && e.private_to == txn {
        remove_row::<Entry>(space, row);
        return;
    }
    let holder = Holder::of(space, txn);
    if takes || holder.slot != NO_SLOT {
        set_row(space, row, holder.mark(e, takes));
    }
}
