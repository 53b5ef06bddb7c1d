// A run of a tray's frames.
ghost use Rattle.std.specs.Prelude.{◌≡◌, ◌+◌, ◌*◌, ◌≤◌};
ghost use Rattle.rules.specs.Allowed.{TrayRan};
ghost use Rattle.rules.specs.Numbers.{max_frames, step_records};
ghost use Rattle.rules.specs.Tray.{tray_refusal};

use crate::pairs::{Pair, pair_at, pair_count, refusal};
use hints::known::Hints;
use rules::Refusal;
use rules::numbers::{RECORD_SIZE, STEP_AREA};
use step::step_hinted;
use words::rows::{WORDS, set_empty};

// The three numbers for the host, in one.
// Kept: a number, since the space hands it on to C as it is.
fn packed(frames: u32, records: usize, number: u8) -> u64
    requires { (frames ≤ max_frames) × (records ≤ step_records * max_frames) }
    ensures { result ≡ frames + 65536 * records + 4294967296 * number }
{
    u64::from(frames) + 65536 * records as u64 + 4294967296 * u64::from(number)
}

// Hands a tray's frames to an empty space, one after another. What is known of the space is known from the first frame
// on.
// Kept: beside the starts in `sittings` and `trial`: three lines; a pair returned would be taken apart at once.
fn run_frames(tray: &[u8], answers: &mut [u8]) -> u64
    requires { tray_refusal tray.now ≡ 0 }
    ensures { TrayRan tray.now answers.old result answers.new }
{
    let count = pair_count(tray);
    let mut space = [0u32; WORDS];
    set_empty(&mut space);
    let mut hints = Hints::of_empty();
    let mut records: usize = 0;
    for frames in 0..count {
        let at = RECORD_SIZE * records;
        if answers.len() < at + STEP_AREA {
            return packed(frames, records, Refusal::Area.number());
        }
        let Pair { offset, end } = pair_at(tray, frames);
        let answer = step_hinted(
            &mut space,
            &mut hints,
            &tray[offset..end],
            &mut answers[at..],
        );
        records += (answer % 65536) as usize;
    }
    packed(count, records, 0)
}

// A tray is run from an empty space: frames done, records and a number, in one. A refused tray is not begun.
// Kept: a number, since the space hands it on to C as it is.
pub fn run_tray(tray: &[u8], answers: &mut [u8]) -> u64
    ensures { TrayRan tray.now answers.old result answers.new }
{
    match refusal(tray) {
        Ok(()) => run_frames(tray, answers),
        Err(refused) => packed(0, 0, refused.number()),
    }
}
