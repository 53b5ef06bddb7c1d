// Where the parts of a frame and of an answer record begin.
pub const PARTY_AT: usize = 1;

pub const TXN_AT: usize = 4;

pub(crate) const FIELDS_AT: usize = 12;

// Where the fields end, and all 28 bytes.
pub const FIELDS_END: usize = 28;

// Of a frame.
pub(crate) const MASK_AT: usize = 2;

pub(crate) const ZERO_AT: usize = 3;

pub(crate) const LEASE_AT: usize = 8;

// Where a renewal has an entry's number, others have a transaction's.
pub(crate) const ENTRY_NAMED_AT: usize = 4;

// Of a record.
pub(crate) const REFUSAL_AT: usize = 2;

pub(crate) const BLANKS_AT: usize = 3;

pub(crate) const ENTRY_AT: usize = 8;
