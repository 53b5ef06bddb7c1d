// A tray's pairs: how many there are, where each one's frame stands, and the refusals 15 and 16.
ghost use Rattle.std.specs.Prelude.{◌≡◌, true, false, ◌+◌, ◌*◌, ◌≤◌, length, MatchResult};
ghost use Rattle.rules.specs.Requests.{number_of};
ghost use Rattle.rules.specs.Tray.{frame_count, bad_tray, tray_refusal};
ghost use Rattle.tray.specs.Pairs.{pair_at, place_of, Stands, misplaced};

use codec::{number_at, whole_number};
use rules::Refusal;
use rules::numbers::{MAX_FRAMES, MAX_TRAY};

// The bytes of the count, and of a pair.
const COUNT_SIZE: usize = 4;

const PAIR_SIZE: usize = 8;

// Where a frame stands in its tray: from `offset` to `end`.
// Kept: two places and no slice, since the refusals 15 and 16 are told before a frame's bytes are known to be there.
#[derive(Clone, Copy)]
pub struct Pair {
    pub offset: usize,
    pub end: usize,
}

// How many pairs a tray says that it has.
pub fn pair_count(tray: &[u8]) -> u32
    ensures { result ≡ frame_count tray.now }
{
    number_at(tray, 0)
}

// The pair at i, counted from 0, whose bytes are there.
pub fn pair_at(tray: &[u8], i: u32) -> Pair
    requires { 4 + 8 * (i + 1) ≤ length tray.now }
    ensures { Stands tray.now i result }
{
    let at = COUNT_SIZE + PAIR_SIZE * i as usize;
    let offset = whole_number(tray, at) as usize;
    let size = whole_number(tray, at + 4) as usize;
    Pair {
        offset,
        end: offset + size,
    }
}

// Where the pairs of a tray end.
pub fn pairs_end(count: u32) -> usize
    ensures { result ≡ 4 + 8 * count }
{
    COUNT_SIZE + PAIR_SIZE * count as usize
}

// How many frames a tray has; 15: its size, its count of frames, or too short for its pairs.
#[tactic(auto, unfolding(rules::specs::Tray::bad_tray))]
pub fn frames_in(tray: &[u8]) -> Result<u32, Refusal>
    ensures { MatchResult result
        (λ n. (n ≡ frame_count tray.now) × (bad_tray tray.now ≡ false))
        (λ r. (r ≡ Refusal.Tray) × (bad_tray tray.now ≡ true)) }
{
    let len = tray.len();
    if len < COUNT_SIZE || MAX_TRAY < len {
        return Err(Refusal::Tray);
    }
    let count = pair_count(tray);
    if MAX_FRAMES < count || len < pairs_end(count) {
        return Err(Refusal::Tray);
    }
    Ok(count)
}

// 15: its size, its count of frames, or too short for its pairs.
pub fn is_bad_tray(tray: &[u8]) -> bool
    ensures { result ≡ bad_tray tray.now }
{
    frames_in(tray).is_err()
}

// 16, of one pair: it begins before what is free, or runs past the tray.
pub fn is_misplaced(pair: Pair, free: usize, len: usize) -> bool
    ensures { result ≡ misplaced free len pair }
{
    pair.offset < free || len < pair.end
}

// The pair at i, whose bytes are there; 16: it begins before what is free, or runs past the tray.
pub fn placed_at(tray: &[u8], i: u32, free: usize) -> Result<Pair, Refusal>
    requires { 4 + 8 * (i + 1) ≤ length tray.now }
    ensures { MatchResult result
        (λ p. Stands tray.now i p × (misplaced free (length tray.now) (place_of (pair_at tray.now i)) ≡ false))
        (λ r. (r ≡ Refusal.Pairs) × (misplaced free (length tray.now) (place_of (pair_at tray.now i)) ≡ true)) }
{
    let pair = pair_at(tray, i);
    if is_misplaced(pair, free, tray.len()) {
        return Err(Refusal::Pairs);
    }
    Ok(pair)
}

// 15 or 16, where the tray cannot be run.
#[tactic(auto, unfolding(rules::specs::Tray::tray_refusal))]
pub fn refusal(tray: &[u8]) -> Result<(), Refusal>
    ensures { number_of result ≡ tray_refusal tray.now }
{
    let count = frames_in(tray)?;
    let mut free = pairs_end(count);
    // Kept: beside the loop of `bounds`: what is judged is `placed_at`, and a walk with a closure is no plainer.
    for i in 0..count {
        free = placed_at(tray, i, free)?.end;
    }
    Ok(())
}
