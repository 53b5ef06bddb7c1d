// The own part of a write.
ghost use Rattle.std.specs.Prelude.{◌≡◌};
ghost use Rattle.rules.specs.Requests.{frame_of, space_refusal};
ghost use Rattle.rules.specs.Words.{view};
ghost use Rattle.rules.specs.Write.{new_entry, write as write_frame};
ghost use Rattle.rules.specs.declared.Request.TheVariants.{Write};
ghost use Rattle.words.specs.Ends.{InTime};
ghost use Rattle.tables.specs.Rows.{FitsWord};
ghost use Rattle.holds.specs.Sweep.{SameBefore};
ghost use Rattle.step.specs.Carries.{Carries};

use crate::own::Own;
use codec::records::{mark_of, written_record};
use rules::{Entry, EntryId, TxnId, WriteRequest};
use words::rows::{Words, add_row, clock, next_number, row_count, set_next_number};
use words::time::end_of;

// The entry that a write makes, with the next number.
pub(crate) fn new_entry(space: &Words, w: WriteRequest) -> Entry
    requires { InTime (view space.now).clock w.lease }
    ensures { (result ≡ new_entry (view space.now) (frame_of (Write w))) × FitsWord result.end }
{
    Entry {
        id: EntryId(next_number::<Entry>(space)),
        fields: mark_of(w.blanks, w.fields),
        end: end_of(clock(space), w.lease),
        private_to: w.txn,
        taken_by: TxnId::NONE,
        readers: 0,
        writer: w.party,
    }
}

// The number is used up, and the entry stored unless the lease is 0.
pub(crate) fn write(space: &mut Words, w: WriteRequest) -> Own
    requires { space_refusal (view space.old) (frame_of (Write w)) ≡ 0 }
    ensures { Carries (write_frame (view space.old) (frame_of (Write w)))
        space.new result.answer
        × SameBefore result.from (view space.old) (view space.new) }
{
    let from = row_count::<Entry>(space);
    let e = new_entry(space, w);
    let answer = written_record(w, e.id);
    set_next_number::<Entry>(space, e.id.0 + 1);
    if w.lease != 0 {
        add_row(space, e);
    }
    Own { answer, from }
}
