// Bytes, little-endian numbers and fields, read (0 past the end) and written.
ghost use Rattle.std.specs.Prelude.{ℕ, ◌≡◌, ◌+◌, ◌≤◌, ◌<◌, ◌++◌, length};
ghost use Rattle.rules.specs.Frame.{byte_at, number_at, four_bytes, fields_at};
ghost use Rattle.codec.specs.Area.{over, fields_bytes};

use crate::places::{FIELDS_AT, LEASE_AT, TXN_AT};
use rules::Fields;

// The byte at a place.
pub fn byte_at(bytes: &[u8], at: usize) -> u8
    ensures { result ≡ byte_at bytes.now at }
{
    bytes.get(at).copied().unwrap_or(0)
}

// The bytes from a place on, N of them.
pub(crate) fn bytes_at<const N: usize>(bytes: &[u8], at: usize) -> [u8; N]
    ensures { (i : ℕ) → i < N → byte_at result i ≡ byte_at bytes.now (at + i) }
{
    let there = &bytes[at.min(bytes.len())..];
    if let Some(whole) = there.first_chunk() {
        return *whole;
    }
    let mut part = [0; N];
    part[..there.len()].copy_from_slice(there);
    part
}

// The number of the four bytes from a place on.
#[tactic(auto, unfolding(rules::specs::Frame::number_at))]
pub fn number_at(bytes: &[u8], at: usize) -> u32
    ensures { result ≡ number_at bytes.now at }
{
    u32::from_le_bytes(bytes_at(bytes, at))
}

// The number of four bytes that are there.
// Kept: `number_at` would test the length again, which its callers have looked at (docs/PERFORMANCE.md, tray's pairs).
#[tactic(auto, unfolding(rules::specs::Frame::number_at))]
pub fn whole_number(bytes: &[u8], at: usize) -> u32
    requires { at + 4 ≤ length bytes.now }
    ensures { result ≡ number_at bytes.now at }
{
    u32::from_le_bytes([bytes[at], bytes[at + 1], bytes[at + 2], bytes[at + 3]])
}

// The four fields from a place on.
pub(crate) fn fields_at(bytes: &[u8], at: usize) -> Fields
    requires { at ≤ length bytes.now + 12 }
    ensures { result ≡ fields_at bytes.now at }
{
    Fields {
        kind: number_at(bytes, at),
        side: number_at(bytes, at + 4),
        image: number_at(bytes, at + 8),
        place: number_at(bytes, at + 12),
    }
}

// Bytes, stored one after another from `at` on.
#[tactic(auto, unfolding(crate::specs::Area::over))]
pub(crate) fn put(out: &mut [u8], at: usize, bytes: &[u8])
    requires { at + length bytes.now ≤ length out.old }
    ensures { out.new ≡ over out.old at bytes.now }
{
    out[at..at + bytes.len()].copy_from_slice(bytes);
}

// The four bytes of a number, from `at` on.
pub(crate) fn put_number(out: &mut [u8], at: usize, n: u32)
    requires { at + 4 ≤ length out.old }
    ensures { out.new ≡ over out.old at (four_bytes n) }
{
    put(out, at, &n.to_le_bytes());
}

// The sixteen bytes of the fields, from `at` on.
pub(crate) fn put_fields(out: &mut [u8], at: usize, f: Fields)
    requires { at + 16 ≤ length out.old }
    ensures { out.new ≡ over out.old at (fields_bytes f) }
{
    put_number(out, at, f.kind);
    put_number(out, at + 4, f.side);
    put_number(out, at + 8, f.image);
    put_number(out, at + 12, f.place);
}

// What a frame and a record have alike: four bytes, a transaction, one more number, and the fields; in front.
pub(crate) fn put_parts(out: &mut [u8], front: [u8; 4], txn: u32, number: u32, f: Fields)
    requires { 28 ≤ length out.old }
    ensures { out.new ≡ over out.old 0 (front ++ four_bytes txn ++ four_bytes number ++ fields_bytes f) }
{
    put(out, 0, &front);
    put_number(out, TXN_AT, txn);
    put_number(out, LEASE_AT, number);
    put_fields(out, FIELDS_AT, f);
}
