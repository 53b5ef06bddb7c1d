// Frames in, records out: what each frame does to one lent array of words.
#![tactic(auto)]

mod look_up;
mod own;
mod take;
mod write;

ghost use Rattle.std.specs.Prelude.{◌≡◌, [], ◌∷◌, ◌+◌, ◌*◌, ◌≤◌, length};
ghost use Rattle.rules.specs.Allowed.{Stepped};
ghost use Rattle.rules.specs.Numbers.{step_area};
ghost use Rattle.rules.specs.Records.{refused};
ghost use Rattle.rules.specs.Requests.{number};
ghost use Rattle.rules.specs.Words.{view};
ghost use Rattle.finish.specs.Does.{Adds};
ghost use Rattle.hints.specs.Hints.{Reliable};
ghost use Rattle.step.specs.Carries.{FrameTaken, StaysReliable};

use crate::take::take_up;
use codec::decode;
use codec::records::refused_record;
use finish::answers::add_record;
use hints::known::Hints;
use rules::Refusal;
use rules::numbers::STEP_AREA;
use words::rows::Words;

// What is returned is the count of records, and so much for each of a refusal's number.
const NUMBER: u64 = 65536;

// A frame is refused: its record, and what is returned.
// Kept: one number: `space_step` hands it to C as it is, and the exported step's contract, `Stepped`, is over it.
fn refuse(answers: &mut [u8], frame: &[u8], refusal: Refusal) -> u64
    requires { step_area ≤ length answers.old }
    ensures { (result ≡ 1 + 65536 * number refusal)
        × Adds (refused frame.now (number refusal) ∷ []) answers.old answers.new 0 1 }
{
    add_record(answers, 0, refused_record(frame, refusal.number()));
    1 + NUMBER * u64::from(refusal.number())
}

// A frame's request is taken up: how many records, or why it is refused.
fn take_frame(
    space: &mut Words,
    hints: &mut Hints,
    frame: &[u8],
    answers: &mut [u8],
) -> Result<usize, Refusal>
    requires { (step_area ≤ length answers.old) × Reliable hints.old (view space.old) }
    ensures { FrameTaken space.old frame.now answers.old result space.new answers.new hints.new }
{
    take_up(space, hints, answers, decode(frame)?)
}

// What a frame does to the space: records + 65,536 × number. A refused frame gives the very same words back. `hints`
// say what is known of the space, before and then after it.
pub fn step_hinted(space: &mut Words, hints: &mut Hints, frame: &[u8], answers: &mut [u8]) -> u64
    requires { Reliable hints.old (view space.old) }
    ensures { Stepped space.old frame.now answers.old
        space.new result answers.new
        × StaysReliable space.old space.new hints.new }
{
    if answers.len() < STEP_AREA {
        return NUMBER * u64::from(Refusal::Area.number());
    }
    match take_frame(space, hints, frame, answers) {
        Ok(count) => count as u64,
        Err(refusal) => refuse(answers, frame, refusal),
    }
}

// The same, of a space of which nothing is known.
pub fn step_frame(space: &mut Words, frame: &[u8], answers: &mut [u8]) -> u64
    ensures { Stepped space.old frame.now answers.old
        space.new result answers.new }
{
    step_hinted(space, &mut Hints::unknown(), frame, answers)
}
