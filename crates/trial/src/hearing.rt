// The panes on their way: they hear records, which are counted, and ticks.
ghost use Rattle.std.specs.Prelude.{◌≡◌, ℕ, ◌+◌, ◌≤◌, ◌<◌};
ghost use Rattle.rules.specs.Numbers.{step_records};
ghost use Rattle.trial.specs.Progress.{at, Room, total, records_at, heard_by, held_by, Each, heard_as};
ghost use Rattle.trial.specs.Progress.{follows};

use crate::machine::{hears, ticked};
use crate::setup::Setup;
use crate::{Pane, Progress};
use codec::record_at;
use rules::Record;
use rules::numbers::{KIND_COMMITTED, KIND_EXCEPTION, KIND_NOTHING, RECORD_SIZE};

// The panes of a trial, at most four: the pane at i is party i + 1.
pub type Panes = [Progress; 4];

impl Progress {
    // A record to the pane: it goes on, and commits, exceptions and nothings are counted.
    fn hear(&mut self, pane: Pane, a: Record)
        requires { total self.old + 1 < 4294967296 }
        ensures { self.new ≡ heard_by pane a self.old }
    {
        self.stage = hears(pane, a, self.stage);
        self.commits += u32::from(a.kind == KIND_COMMITTED);
        self.exceptions += u32::from(a.kind == KIND_EXCEPTION);
        self.nothings += u32::from(a.kind == KIND_NOTHING);
    }
}

// A record, heard by the pane that it is to, if it is to one.
fn hear_record(setup: &Setup<'_>, panes: &mut Panes, a: Record)
    requires { Room setup.now.words.now 1 panes.old }
    ensures { Each setup.now.words.now (heard_as setup.now.words.now a) panes.old panes.new }
{
    let party = a.party as usize;
    if 1 <= party && party <= setup.pane_count() {
        let i = party - 1;
        panes[i].hear(setup.pane_at(i), a);
    }
}

// The records in front of an area, heard one after another.
// Kept: area and count, since definitions of what is heard take both (`records_at`).
pub(crate) fn hear_all(setup: &Setup<'_>, panes: &mut Panes, area: &[u8], count: usize)
    requires { (count ≤ step_records) × Room setup.now.words.now count panes.old }
    ensures { Each setup.now.words.now (follows setup.now.words.now (records_at area.now count)) panes.old panes.new }
{
    // Kept: by places: over `chunks_exact(..).take(n)` the body would call the same reader: no plainer.
    for i in 0..count {
        hear_record(setup, panes, record_at(area, RECORD_SIZE * i));
    }
}

// A tick comes: those that hold hold for one tick less.
pub(crate) fn hold_all(panes: &mut Panes)
    ensures { (i : ℕ) → i < 4 → at panes.new i ≡ held_by (at panes.old i) }
{
    for x in panes.iter_mut() {
        x.stage = ticked(x.stage);
    }
}
