// The words of a setup: rounds, panes, starting entries, then six words for each pane and five for each starting entry.
ghost use Rattle.std.specs.Prelude.{◌≡◌, ◌+◌, ◌*◌, ◌≤◌, ◌<◌, length, IfOk};
ghost use Rattle.rules.specs.Frame.{frame_bytes};
ghost use Rattle.rules.specs.Requests.{frame_of, number_of};
ghost use Rattle.trial.specs.Setup.{rounds_in, pane_count, starting_count, bad_setup, setup_refusal, pane_at};
ghost use Rattle.trial.specs.Setup.{starting_frame};

use crate::Pane;
use rules::numbers::MAX_PARTY;
use rules::{Fields, Refusal, Request, TxnId, WriteRequest};

const ROUNDS_AT: usize = 0;

const PANE_COUNT_AT: usize = 1;

const STARTING_COUNT_AT: usize = 2;

const HEAD: usize = 3;

// The words of a pane, of a starting entry, and of a pane's counts.
const PANE_WIDTH: usize = 6;

const STARTING_WIDTH: usize = 5;

const COUNTS_WIDTH: usize = 3;

const MAX_PANES: usize = 4;

const MAX_STARTING: usize = 8;

const MAX_ROUNDS: u32 = 1000;

// Starting entries are written by the last party.
const STARTING_PARTY: u8 = MAX_PARTY;

// A setup that can be tried.
// Kept: its words by their places, as the C interface hands them in.
#[derive(Clone, Copy)]
pub struct Setup<'a> {
    words: &'a [u32],
    ghost few: { pane_count words.now ≤ 4 },
    ghost starting: { starting_count words.now ≤ 8 },
    ghost size: { length words.now ≡ 3 + 6 * pane_count words.now + 5 * starting_count words.now },
    ghost rounds: { rounds_in words.now ≤ 1000 },
}

// 23: panes not 1 to 4, too many starting entries, another number of words, or no room for the counts.
#[tactic(auto, unfolding(crate::specs::Setup::bad_setup))]
fn is_bad_setup(words: &[u32], room: usize) -> bool
    ensures { result ≡ bad_setup words.now room }
{
    if words.len() < HEAD {
        return true;
    }
    let panes = words[PANE_COUNT_AT] as usize;
    let starting = words[STARTING_COUNT_AT] as usize;
    panes == 0
        || MAX_PANES < panes
        || MAX_STARTING < starting
        || words.len() != HEAD + PANE_WIDTH * panes + STARTING_WIDTH * starting
        || room < COUNTS_WIDTH * panes
}

impl<'a> Setup<'a> {
    // Of words that neither 23 nor 24 refuses, where there is room for so many counts; else the refusal.
    #[tactic(auto, unfolding(crate::specs::Setup::setup_refusal))]
    pub(crate) fn read(words: &'a [u32], room: usize) -> Result<Setup<'a>, Refusal>
        ensures number { number_of result ≡ setup_refusal words.now room }
        ensures kept { IfOk result (λ s. (s.words.now ≡ words.now) × (3 * pane_count words.now ≤ room)) }
    {
        if is_bad_setup(words, room) {
            return Err(Refusal::Panes);
        }
        if MAX_ROUNDS < words[ROUNDS_AT] {
            return Err(Refusal::Rounds);
        }
        Ok(Setup { words })
    }

    pub(crate) fn rounds(&self) -> u32
        ensures { result ≡ rounds_in self.now.words.now }
    {
        self.words[ROUNDS_AT]
    }

    pub(crate) fn pane_count(&self) -> usize
        ensures { result ≡ pane_count self.now.words.now }
    {
        self.words[PANE_COUNT_AT] as usize
    }

    pub(crate) fn starting_count(&self) -> usize
        ensures { result ≡ starting_count self.now.words.now }
    {
        self.words[STARTING_COUNT_AT] as usize
    }

    // The pane at a place, counted from 0.
    #[tactic(auto, unfolding(crate::specs::Setup::pane_at))]
    pub(crate) fn pane_at(&self, i: usize) -> Pane
        requires { i < pane_count self.now.words.now }
        ensures { result ≡ pane_at self.now.words.now i }
    {
        let at = HEAD + PANE_WIDTH * i;
        Pane {
            txn_lease: self.words[at],
            timeout: self.words[at + 1],
            taken: self.words[at + 2],
            lease: self.words[at + 3],
            written: self.words[at + 4],
            hold: self.words[at + 5],
        }
    }

    // The write of the starting entry at a place, counted from 0.
    #[tactic(auto, unfolding(crate::specs::Setup::starting_frame))]
    pub(crate) fn starting_write(&self, j: usize) -> Request
        requires { j < starting_count self.now.words.now }
        ensures { frame_bytes (frame_of result) ≡ starting_frame self.now.words.now j }
    {
        let at = HEAD + PANE_WIDTH * self.pane_count() + STARTING_WIDTH * j;
        let fields = Fields {
            kind: self.words[at],
            side: self.words[at + 1],
            image: self.words[at + 2],
            place: self.words[at + 3],
        };
        Request::Write(WriteRequest {
            txn: TxnId(0),
            party: STARTING_PARTY,
            blanks: 0,
            lease: self.words[at + 4],
            fields,
        })
    }
}
