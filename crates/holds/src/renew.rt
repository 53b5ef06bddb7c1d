// The entry that a renewal names, and its end.
ghost use Rattle.std.specs.Prelude.{◌≡◌, ◌<◌};
ghost use Rattle.rules.specs.Renew.{stored_entry};
ghost use Rattle.rules.specs.Words.{view, entry_count};
ghost use Rattle.words.specs.Ends.{InTime};
ghost use Rattle.tables.specs.Rows.{entry_row};
ghost use Rattle.available.specs.Find.{match_of, InRow};
ghost use Rattle.holds.specs.Renew.{renewed_at};

use crate::search::first_row;
use rules::{Entry, EntryId};
use words::rows::{Words, clock, remove_row, row_at, set_row};
use words::time::end_of;

// The stored entry with a number, and its row.
pub fn find_entry(space: &Words, id: EntryId) -> Option<(Entry, usize)>
    ensures { (match_of result ≡ stored_entry id.0 (view space.now).entries)
        × InRow space.now result }
{
    let row = first_row(space, |e| e.id == id)?;
    Some((row_at(space, row), row))
}

// The entry of the row ends at clock + lease, or never; with lease 0 it goes.
// Kept: `InTime` is of the clock and the lease together (refusal 10), so no type of one of them can hold it.
pub fn renew_entry(space: &mut Words, row: usize, e: Entry, lease: u32)
    requires { (row < entry_count space.old) × (e ≡ entry_row space.old row)
        × InTime (view space.old).clock lease }
    ensures { view space.new ≡ renewed_at lease e row (view space.old) }
{
    if lease == 0 {
        remove_row::<Entry>(space, row);
    } else {
        let end = end_of(clock(space), lease);
        set_row(space, row, Entry { end, ..e });
    }
}
