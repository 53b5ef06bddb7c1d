// The numbers that document 01 gives a meaning to.

// FOREVER; the last value of the clock, which is also the last end that is not FOREVER.
pub const FOREVER: u32 = 4294967295;

pub const LAST_CLOCK: u32 = 4294967294;

// At most so many entries are stored, transactions live, look-ups wait and registrations live; parties are 1 to 16.
pub const MAX_ENTRIES: usize = 64;

pub const MAX_TXNS: usize = 8;

pub const MAX_WAITS: usize = 16;

// The places of a clock face.
pub const PLACES: u32 = 720;

// An arc's length is told by its bits from the 17th on.
pub const ARC_LENGTH: u32 = 65536;

pub const MAX_REGISTRATIONS: usize = 8;

pub const MAX_PARTY: u8 = 16;

// The bytes of a record, and of the records of a step at most.
pub const RECORD_SIZE: usize = 28;

pub const STEP_AREA: usize = 700;

// The bytes and frames of a tray at most.
pub const MAX_TRAY: usize = 65536;

pub const MAX_FRAMES: u32 = 2000;

// Operations: byte 0 of a frame.
// Kept: bytes, since document 01's form matches on any operation byte with ranges, falling to 2.
pub const OP_WRITE: u8 = 1;

pub const OP_READ: u8 = 2;

pub const OP_TAKE: u8 = 3;

pub const OP_READ_IF_EXISTS: u8 = 4;

pub const OP_TAKE_IF_EXISTS: u8 = 5;

pub const OP_CREATE: u8 = 6;

pub const OP_COMMIT: u8 = 7;

pub const OP_ABORT: u8 = 8;

pub const OP_TICK: u8 = 9;

pub const OP_NOTIFY: u8 = 10;

pub const OP_RENEW: u8 = 11;

// Kinds: byte 0 of an answer record.
// Kept: bytes, since a record's kind is read back from any 28 bytes (`codec::record_at`).
pub const KIND_WRITTEN: u8 = 1;

pub const KIND_FOUND: u8 = 2;

pub const KIND_NOTHING: u8 = 3;

pub const KIND_WAITING: u8 = 4;

pub const KIND_CREATED: u8 = 5;

pub const KIND_COMMITTED: u8 = 6;

pub const KIND_ABORTED: u8 = 7;

pub const KIND_EXCEPTION: u8 = 8;

pub const KIND_TICKED: u8 = 9;

pub const KIND_NOTIFIED: u8 = 10;

pub const KIND_RUNG: u8 = 11;

pub const KIND_RENEWED: u8 = 12;

pub const KIND_REFUSED: u8 = 15;
