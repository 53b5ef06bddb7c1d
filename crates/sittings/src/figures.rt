// The figures of a party, as they stand in a report.
ghost use Rattle.std.specs.Prelude.{◌≡◌, [], ◌∷◌};
ghost use Rattle.rules.specs.Sound.{IsParty};
ghost use Rattle.sittings.specs.Figures.{figures_for, figures_at, only, Gained};

use crate::Report;

// Where the first party's begin, behind the words of all, and how many a party has.
const FIGURES_AT: usize = 2;

const WIDTH: usize = 5;

#[derive(Clone, Copy, Default)]
pub struct Figures {
    // Look-ups not refused.
    pub asked: u32,
    pub founds: u32,
    // Of the waits: the longest, the ticks of all, and how many there are.
    pub longest: u32,
    pub total: u32,
    pub count: u32,
}

impl Figures {
    // Those of one wait.
    #[tactic(auto, unfolding(crate::specs::Report::sum, crate::specs::Report::greatest))]
    pub(crate) fn of_wait(ticks: u32) -> Figures
        ensures { result ≡ figures_for 0 0 (ticks ∷ []) }
    {
        Figures {
            longest: ticks,
            total: ticks,
            count: 1,
            ..Figures::default()
        }
    }
}

// A party's, in a report.
// Kept: its words by their places, as the C interface has them.
pub(crate) fn figures_at(report: &Report, party: u8) -> Figures
    requires { IsParty party }
    ensures { result ≡ figures_at report.now party }
{
    let at = FIGURES_AT + WIDTH * (party as usize - 1);
    Figures {
        asked: report[at],
        founds: report[at + 1],
        longest: report[at + 2],
        total: report[at + 3],
        count: report[at + 4],
    }
}

// Figures are added to a party's. Sums wrap: they never do in a report that calls made.
pub(crate) fn add_figures(report: &mut Report, party: u8, more: Figures)
    requires { IsParty party }
    ensures { Gained report.old (only party more) report.new }
{
    let old = figures_at(report, party);
    let at = FIGURES_AT + WIDTH * (party as usize - 1);
    report[at] = old.asked.wrapping_add(more.asked);
    report[at + 1] = old.founds.wrapping_add(more.founds);
    report[at + 2] = old.longest.max(more.longest);
    report[at + 3] = old.total.wrapping_add(more.total);
    report[at + 4] = old.count.wrapping_add(more.count);
}
