// The types that the space's code and rules share, and the numbers of document 01.
#![tactic(auto)]

ghost use Rattle.std.specs.Prelude.{◌≡◌};
ghost use Rattle.std.proofs.Math.Option.{some};
ghost use Rattle.rules.specs.Refusals.{is_free};

pub mod bits;
pub mod look_up;
pub mod numbers;
mod refusal;
mod until;

pub use refusal::Refusal;
pub use until::Until;

// The number of an entry. Counted from 1.
#[derive(Clone, Copy, PartialEq, Eq)]
pub struct EntryId(pub u32);

// The number of a transaction. Counted from 1; 0 means none.
// Kept: 0 and no Option, since so it stands in frames, in records and in the words of a space, which C is lent.
#[derive(Clone, Copy, PartialEq, Eq)]
pub struct TxnId(pub u32);

impl TxnId {
    pub const NONE: TxnId = TxnId(0);
}

// The number of a registration. Counted from 1.
#[derive(Clone, Copy, PartialEq, Eq)]
pub struct RegistrationId(pub u32);

// Four fields, as a frame has them.
#[derive(Clone, Copy)]
pub struct Fields {
    pub kind: u32,
    pub side: u32,
    pub image: u32,
    pub place: u32,
}

// The four fields of an entry, and which of them are blank: bit 0 stands for kind, up to bit 3 for place.
// Kept: no `Fields` in it, since definitions of the rules (Template, Words, Records, Print) name its five fields.
#[derive(Clone, Copy)]
pub struct Mark {
    pub kind: u32,
    pub side: u32,
    pub image: u32,
    pub place: u32,
    pub blanks: u8,
}

// A stored entry.
#[derive(Clone, Copy)]
pub struct Entry {
    pub id: EntryId,
    pub fields: Mark,
    pub end: Until,
    // The transaction that it is private to; 0: it is committed.
    pub private_to: TxnId,
    // The transaction that has a take hold on it; 0: none.
    pub taken_by: TxnId,
    // Bit p: the live transaction at slot p has a read hold on it.
    pub readers: u8,
    // The party that wrote it.
    pub writer: u8,
}

impl Entry {
    // Whether it is committed, and nobody holds it.
    pub fn is_free(self) -> bool
        ensures { result ≡ is_free (some self) }
    {
        self.private_to == TxnId::NONE && self.taken_by == TxnId::NONE && self.readers == 0
    }
}

// A live transaction.
#[derive(Clone, Copy)]
pub struct Txn {
    pub id: TxnId,
    pub party: u8,
    pub end: Until,
    // Its bit in an entry's readers, 0 to 7: no two live transactions share one.
    pub slot: u8,
}

// A look-up, waiting or just asked.
#[derive(Clone, Copy)]
pub struct LookUp {
    pub party: u8,
    pub takes: bool,
    pub if_exists: bool,
    pub mask: u8,
    pub fields: Fields,
    pub txn: TxnId,
    pub deadline: Until,
}

// A live registration: its party hears of entries made public that match its template.
#[derive(Clone, Copy)]
pub struct Registration {
    pub id: RegistrationId,
    pub party: u8,
    pub mask: u8,
    pub fields: Fields,
    pub end: Until,
    // The matching entries made public so far.
    pub total: u32,
}

// The nine numbers of an answer, and the blanks of its fields.
#[derive(Clone, Copy)]
pub struct Record {
    pub kind: u8,
    pub party: u8,
    // Kept: a byte, 0 where nothing is refused, since a record is read back from any 28 bytes (`codec::record_at`).
    pub refusal: u8,
    pub txn: TxnId,
    pub entry: EntryId,
    pub fields: Mark,
}

// Requests. In the structs a number comes first, then the bytes, then the other numbers: so no byte of one lies where
// another has a part of a number, and the compiler tells a frame's kind once, from its first byte on. A create, a
// commit and an abort have one byte and one number.

// A write: transaction, party, which fields are blank, lease, fields.
#[derive(Clone, Copy)]
pub struct WriteRequest {
    pub txn: TxnId,
    pub party: u8,
    pub blanks: u8,
    pub lease: u32,
    pub fields: Fields,
}

// A look-up: it takes or reads; the IfExists kinds wait only while an entry conflicts.
// Kept: mask and fields are two: the rules' `matches` takes each, and look-ups and registrations have each.
#[derive(Clone, Copy)]
pub struct FindRequest {
    pub txn: TxnId,
    pub party: u8,
    pub takes: bool,
    pub if_exists: bool,
    pub mask: u8,
    pub timeout: u32,
    pub fields: Fields,
}

// A notify: lease, party, template.
#[derive(Clone, Copy)]
pub struct NotifyRequest {
    pub lease: u32,
    pub party: u8,
    pub mask: u8,
    pub fields: Fields,
}

// A renewal: the entry, the party, the lease.
#[derive(Clone, Copy)]
pub struct RenewRequest {
    pub entry: EntryId,
    pub party: u8,
    pub lease: u32,
}

// What a frame asks for, once its form is in order.
#[derive(Clone, Copy)]
pub enum Request {
    Write(WriteRequest),
    Find(FindRequest),
    // The party, and the lease.
    Create(u8, u32),
    // The party, and its transaction.
    Commit(u8, TxnId),
    Abort(u8, TxnId),
    Renew(RenewRequest),
    Notify(NotifyRequest),
    Tick,
}
