// A sitting: a tray's run, and what it adds to a report.
ghost use Rattle.std.specs.Prelude.{◌≡◌};
ghost use Rattle.rules.specs.Tray.{tray_refusal};
ghost use Rattle.sittings.specs.Waits.{sitting};
ghost use Rattle.sittings.specs.Figures.{figures_of, Gained};

use crate::Report;
use crate::waits::WAITS;
use crate::watch::Watch;
use hints::known::Hints;
use rules::numbers::STEP_AREA;
use step::step_hinted;
use tray::pairs::{Pair, pair_at, pair_count};
use words::rows::{WORDS, set_empty};

// A tray is run from an empty space to its last frame: each step is lent the whole answers area, so that it never runs
// short.
// Kept: beside `tray`'s: three lines of start, and a loop that lends the whole area each time and never ends early.
pub(crate) fn add_sitting(report: &mut Report, tray: &[u8])
    requires { tray_refusal tray.now ≡ 0 }
    ensures { Gained report.old (λ p. figures_of p (sitting tray.now))
        report.new }
{
    let mut space = [0u32; WORDS];
    set_empty(&mut space);
    let mut hints = Hints::of_empty();
    let mut answers = [0u8; STEP_AREA];
    let mut watch = Watch {
        report: *report,
        waits: [None; WAITS],
        clock: 0,
    };
    let count = pair_count(tray);
    for i in 0..count {
        let Pair { offset, end } = pair_at(tray, i);
        let answer = step_hinted(&mut space, &mut hints, &tray[offset..end], &mut answers);
        let n = (answer % 65536) as usize;
        watch.note_frame(&tray[offset..end], &answers, n);
    }
    watch.end_waits();
    *report = watch.report;
}
