// How big an area a tray wants: two bounds, from the tray alone, in one pass over its pairs.
#![tactic(auto)]

ghost use Rattle.std.specs.Prelude.{min, ◌≡◌, ◌+◌, ◌≤◌, ◌*◌, MatchResult};
ghost use Rattle.rules.specs.Numbers.{max_entries, max_registrations};
ghost use Rattle.rules.specs.Requests.{number};
ghost use Rattle.bounds.specs.Bounds.{bounds_number};
ghost use Rattle.bounds.specs.Counts.{rings, share, counting, FewFrames};

use codec::byte_at;
use rules::Refusal;
use rules::numbers::{
    MAX_ENTRIES, MAX_REGISTRATIONS, OP_COMMIT, OP_CREATE, OP_NOTIFY, OP_READ, OP_TAKE_IF_EXISTS,
    OP_WRITE,
};
use tray::pairs::{Pair, frames_in, pairs_end, placed_at};

// The units of the number that is returned.
const RECORDS: u64 = 65536;

const NUMBER: u64 = 4294967296;

// Of the frames so far: the writes, the notify frames, and the records that all may give.
#[derive(Clone, Copy, Default)]
pub struct Counts {
    pub writes: u32,
    pub notifies: u32,
    pub records: u32,
}

// The registrations that a write or a commit may ring; no other frame rings any.
fn bells_of(op: u8, notifies: u32) -> u32
    ensures { (result ≡ rings op (min max_registrations notifies)) × (result ≤ max_registrations) }
{
    match op {
        OP_WRITE | OP_COMMIT => (MAX_REGISTRATIONS as u32).min(notifies),
        _ => 0,
    }
}

// The records that a frame may give: its own, a later answer to a look-up, an exception of a transaction, bells.
fn records_of(op: u8, notifies: u32) -> u32
    ensures { (result ≡ share op notifies) × (result ≤ 11) }
{
    let answer = u32::from(OP_READ <= op && op <= OP_TAKE_IF_EXISTS);
    let exception = u32::from(op == OP_CREATE);
    1 + answer + exception + bells_of(op, notifies)
}

// One frame more, by its first byte.
fn count_frame(counts: Counts, op: u8) -> Counts
    requires { FewFrames counts }
    ensures { result ≡ counting op counts }
{
    Counts {
        writes: counts.writes + u32::from(op == OP_WRITE),
        notifies: counts.notifies + u32::from(op == OP_NOTIFY),
        records: counts.records + records_of(op, counts.notifies),
    }
}

// Kept: a number, since the space hands it on to C as it is.
fn packed(counts: Counts) -> u64
    requires { FewFrames counts }
    ensures { result ≡ min max_entries counts.writes + 65536 * counts.records }
{
    u64::from((MAX_ENTRIES as u32).min(counts.writes)) + RECORDS * u64::from(counts.records)
}

// Each pair is judged, and its frame is counted: both bounds, or the refusal, 15 or 16.
fn count_frames(tray: &[u8]) -> Result<u64, Refusal>
    ensures { MatchResult result
        (λ n. n ≡ bounds_number tray.now)
        (λ r. 4294967296 * number r ≡ bounds_number tray.now) }
{
    let count = frames_in(tray)?;
    let mut free = pairs_end(count);
    let mut counts = Counts::default();
    // Kept: beside the loop of `tray::pairs::refusal`: both judge by `placed_at`; a walk with a closure is no plainer.
    for i in 0..count {
        let Pair { offset, end } = placed_at(tray, i, free)?;
        counts = count_frame(counts, byte_at(&tray[offset..end], 0));
        free = end;
    }
    Ok(packed(counts))
}

// Entries + 65,536 × records + 4,294,967,296 × the number by which the tray is refused.
// Kept: a number, since the space hands it on to C as it is.
pub fn tray_bounds(tray: &[u8]) -> u64
    ensures { result ≡ bounds_number tray.now }
{
    count_frames(tray).unwrap_or_else(|refused| NUMBER * u64::from(refused.number()))
}
