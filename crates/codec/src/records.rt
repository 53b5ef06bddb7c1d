// Answer records, and their 28 bytes: written, and read.
ghost use Rattle.std.specs.Prelude.{◌≡◌};
ghost use Rattle.rules.specs.Template.{mark_of, bare};
ghost use Rattle.rules.specs.Records.{plain, written, found, renewed, notified, rung, refused, record_at};
ghost use Rattle.rules.specs.declared.Request.TheVariants.{Write, Notify};
ghost use Rattle.rules.specs.Requests.{frame_of, renew_of};
ghost use Rattle.codec.specs.Area.{record_put};

use crate::bytes::{byte_at, bytes_at, fields_at, number_at, put_parts};
use crate::places::{BLANKS_AT, ENTRY_AT, FIELDS_AT, PARTY_AT, REFUSAL_AT, TXN_AT};
use rules::numbers::{
    KIND_FOUND, KIND_NOTIFIED, KIND_REFUSED, KIND_RENEWED, KIND_RUNG, KIND_WRITTEN, RECORD_SIZE,
};
use rules::{
    Entry, EntryId, Fields, LookUp, Mark, NotifyRequest, Record, Registration, RegistrationId,
    TxnId, WriteRequest,
};

// No fields, and none of them blank.
// Kept: a constant: a Default is none, and a call of it at each use is no plainer.
const NO_MARK: Mark = Mark {
    kind: 0,
    side: 0,
    image: 0,
    place: 0,
    blanks: 0,
};

// Fields with their blanks.
// Kept: two arguments, so a From would be of a pair: no plainer.
pub fn mark_of(blanks: u8, fields: Fields) -> Mark
    ensures { result ≡ mark_of blanks fields }
{
    Mark {
        kind: fields.kind,
        side: fields.side,
        image: fields.image,
        place: fields.place,
        blanks,
    }
}

// The fields of a mark, as they stand in a frame.
fn bare_fields(mark: Mark) -> Fields
    ensures { result ≡ bare mark }
{
    Fields {
        kind: mark.kind,
        side: mark.side,
        image: mark.image,
        place: mark.place,
    }
}

// The 28 bytes of a record, in front; fewer bytes are left as they are.
#[tactic(auto, unfolding(crate::specs::Area::record_put, rules::specs::Records::record_bytes))]
pub fn put_record(out: &mut [u8], r: Record)
    ensures { out.new ≡ record_put r out.old }
{
    if out.len() < RECORD_SIZE {
        return;
    }
    put_parts(
        out,
        [r.kind, r.party, r.refusal, r.fields.blanks],
        r.txn.0,
        r.entry.0,
        bare_fields(r.fields),
    );
}

// A record with no entry. The other kinds begin as one.
pub fn plain_record(kind: u8, party: u8, txn: TxnId) -> Record
    ensures { result ≡ plain kind party txn.0 }
{
    Record {
        kind,
        party,
        refusal: 0,
        txn,
        entry: EntryId(0),
        fields: NO_MARK,
    }
}

// An entry has been written, with this number.
#[tactic(auto, unfolding(rules::specs::Records::written))]
pub fn written_record(w: WriteRequest, entry: EntryId) -> Record
    ensures { result ≡ written (frame_of (Write w)) entry.0 }
{
    Record {
        entry,
        ..plain_record(KIND_WRITTEN, w.party, w.txn)
    }
}

// An entry is handed out to a look-up.
#[tactic(auto, unfolding(rules::specs::Records::found))]
pub fn found_record(w: LookUp, e: Entry) -> Record
    ensures { result ≡ found w e }
{
    Record {
        entry: e.id,
        fields: e.fields,
        ..plain_record(KIND_FOUND, w.party, w.txn)
    }
}

// An entry has another end.
#[tactic(auto, unfolding(rules::specs::Records::renewed))]
pub fn renewed_record(party: u8, entry: EntryId, lease: u32) -> Record
    ensures { result ≡ renewed (frame_of (renew_of party entry lease)) }
{
    Record {
        entry,
        ..plain_record(KIND_RENEWED, party, TxnId(0))
    }
}

// A registration has been made, with this number.
#[tactic(auto, unfolding(rules::specs::Records::notified))]
pub fn notified_record(n: NotifyRequest, id: RegistrationId) -> Record
    ensures { result ≡ notified (frame_of (Notify n)) id.0 }
{
    Record {
        entry: EntryId(id.0),
        ..plain_record(KIND_NOTIFIED, n.party, TxnId(0))
    }
}

// Entries that a registration matches have been made public: so many in this step.
#[tactic(auto, unfolding(rules::specs::Records::rung))]
pub fn rung_record(count: u32, g: Registration) -> Record
    ensures { result ≡ rung count g }
{
    Record {
        entry: EntryId(g.id.0),
        fields: Mark {
            kind: count,
            side: g.total,
            ..NO_MARK
        },
        ..plain_record(KIND_RUNG, g.party, TxnId(0))
    }
}

// A frame is refused, with this number: any byte, as a record has it.
#[tactic(auto, unfolding(rules::specs::Records::refused))]
pub fn refused_record(frame: &[u8], refusal: u8) -> Record
    ensures { result ≡ refused frame.now refusal }
{
    Record {
        refusal,
        ..plain_record(KIND_REFUSED, byte_at(frame, PARTY_AT), TxnId(0))
    }
}

// The record whose 28 bytes stand at a place; past the end bytes are 0.
#[tactic(auto, unfolding(rules::specs::Records::record_at, rules::specs::Frame::number_at))]
pub fn record_at(bytes: &[u8], at: usize) -> Record
    ensures { result ≡ record_at bytes.now at }
{
    let record: [u8; RECORD_SIZE] = bytes_at(bytes, at);
    Record {
        kind: record[0],
        party: record[PARTY_AT],
        refusal: record[REFUSAL_AT],
        txn: TxnId(number_at(&record, TXN_AT)),
        entry: EntryId(number_at(&record, ENTRY_AT)),
        fields: mark_of(record[BLANKS_AT], fields_at(&record, FIELDS_AT)),
    }
}
