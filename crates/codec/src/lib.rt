// Frames and answer records, read from bytes and written as bytes.
#![tactic(auto)]

mod bytes;
mod encode;
mod frames;
pub mod places;
pub mod records;

pub use bytes::{byte_at, number_at, whole_number};
pub use encode::put_frame;
pub use frames::decode;
pub use records::{put_record, record_at};
