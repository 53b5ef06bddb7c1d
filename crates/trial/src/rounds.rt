// A trial: frames are handed to a space of its own in rounds, and what the panes are answered is counted.
ghost use Rattle.std.specs.Prelude.{◌≡◌, true, ◌++◌, map, ◌*◌, ◌≤◌, ◌<◌, length, drop};
ghost use Rattle.rules.specs.Lists.{joined};
ghost use Rattle.rules.specs.Words.{up_to};
ghost use Rattle.rules.specs.Frame.{frame_bytes};
ghost use Rattle.rules.specs.Requests.{frame_of};
ghost use Rattle.trial.specs.Setup.{rounds_in, pane_count, starting_count, starting_frames};
ghost use Rattle.trial.specs.Trial.{is_ready, next_of, sends_now, send, turns, round, rounds, send_all};
ghost use Rattle.trial.specs.Trial.{counts_in};
ghost use Rattle.trial.specs.Progress.{at, counts_at, next_at};
ghost use Rattle.trial.specs.Trying.{Begun, Underway, Goes};

use crate::Progress;
use crate::hearing::{Panes, hear_all, hold_all};
use crate::machine::next_of;
use crate::setup::Setup;
use codec::places::FIELDS_END;
use codec::put_frame;
use hints::known::Hints;
use rules::Request;
use rules::numbers::STEP_AREA;
use step::step_hinted;
use words::rows::{WORDS, Words, set_empty};

// What the pane at a place sends next; nothing while it waits or holds.
fn next_at(setup: &Setup<'_>, panes: &Panes, i: usize) -> Option<Request>
    requires { i < pane_count setup.now.words.now }
    ensures { result ≡ next_at setup.now.words.now panes.now i }
{
    next_of(setup.pane_at(i), (i + 1) as u8, panes[i].stage)
}

// A trial under way: what was handed in, the space with what is known of it, and the panes.
#[derive(Drop)]
pub struct Trial<'a> {
    pub setup: Setup<'a>,
    pub space: Words,
    pub hints: Hints,
    pub panes: Panes,
}

impl<'a> Trial<'a> {
    // In an empty space; no pane has begun.
    // Kept: beside the starts in `tray` and `sittings`: three lines; a pair returned would be taken apart at once.
    fn new(setup: Setup<'a>) -> Trial<'a>
        ensures { Begun setup.entry.words.now result }
    {
        let mut space = [0u32; WORDS];
        set_empty(&mut space);
        Trial {
            setup,
            space,
            hints: Hints::of_empty(),
            panes: [Progress::default(); 4],
        }
    }

    // A frame is sent, and the panes hear the records of its step.
    // Kept: `Underway` is asked for: how many frames may follow is another number in each method.
    fn send(&mut self, q: Request)
        requires { Underway 1 self.old }
        ensures { Goes 1 (send (frame_bytes (frame_of q))) self.old self.new }
    {
        let mut frame = [0u8; FIELDS_END];
        let size = put_frame(&mut frame, q);
        let mut area = [0u8; STEP_AREA];
        let answer = step_hinted(&mut self.space, &mut self.hints, &frame[..size], &mut area);
        hear_all(
            &self.setup,
            &mut self.panes,
            &area,
            (answer % 65536) as usize,
        );
    }

    // The pane at a place sends what it sends next.
    fn turn(&mut self, i: usize)
        requires { Underway 1 self.old × (i < pane_count self.old.setup.words.now) }
        ensures { Goes 1 (λ r. sends_now true (next_of r.panes i) r) self.old self.new }
    {
        if let Some(q) = next_at(&self.setup, &self.panes, i) {
            self.send(q);
        }
    }

    // The panes that are ready now send one frame each, by number.
    fn take_turns(&mut self)
        requires { Underway 4 self.old }
        ensures { Goes 4 (λ r. turns (map is_ready r.panes) 0 r) self.old self.new }
    {
        let now = self.panes;
        let count = self.setup.pane_count();
        for i in 0..count {
            if next_at(&self.setup, &now, i).is_some() {
                self.turn(i);
            }
        }
    }

    // A round: turns, then a tick.
    fn round(&mut self)
        requires { Underway 5 self.old }
        ensures { Goes 5 round self.old self.new }
    {
        self.take_turns();
        hold_all(&mut self.panes);
        self.send(Request::Tick);
    }

    fn run_rounds(&mut self)
        requires { Underway (5 * rounds_in self.old.setup.words.now) self.old }
        ensures { let n = rounds_in self.old.setup.words.now in Goes (5 * n) (rounds n) self.old self.new }
    {
        let count = self.setup.rounds();
        for _i in 0..count {
            self.round();
        }
    }

    // The starting entries are written first.
    fn write_starting(&mut self)
        requires { Underway (starting_count self.old.setup.words.now) self.old }
        ensures { let ws = self.old.setup.words.now in
            Goes (starting_count ws) (send_all (starting_frames ws)) self.old self.new }
    {
        let count = self.setup.starting_count();
        for j in 0..count {
            let q = self.setup.starting_write(j);
            self.send(q);
        }
    }
}

// Commits, exceptions and nothings of each pane.
fn put_counts(panes: &Panes, count: usize, counts: &mut [u32])
    requires { (count ≤ 4) × (3 * count ≤ length counts.old) }
    ensures { counts.new
        ≡ joined (up_to (λ i. counts_at (at panes.now i)) count) ++ drop (3 * count) counts.old }
{
    // Kept: word by word: three writes for each pane either way, so `chunks_exact_mut` is no plainer.
    for i in 0..count {
        let x = panes[i];
        counts[3 * i] = x.commits;
        counts[3 * i + 1] = x.exceptions;
        counts[3 * i + 2] = x.nothings;
    }
}

// A trial in an empty space, counted.
pub(crate) fn count_trial(setup: &Setup<'_>, counts: &mut [u32])
    requires { 3 * pane_count setup.now.words.now ≤ length counts.old }
    ensures { counts.new
        ≡ counts_in setup.now.words.now ++ drop (3 * pane_count setup.now.words.now) counts.old }
{
    let mut trial = Trial::new(*setup);
    trial.write_starting();
    trial.run_rounds();
    put_counts(&trial.panes, setup.pane_count(), counts);
}
