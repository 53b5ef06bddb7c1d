// Waiting times over many sittings.
#![tactic(auto)]

mod figures;
mod records;
mod sitting;
mod waits;
mod watch;

ghost use Rattle.sittings.specs.Report.{Added, report_of};
ghost use Rattle.std.specs.Prelude.{◌≡◌, []};

use rules::Refusal;
use sitting::add_sitting;
use tray::pairs::refusal;

pub const REPORT: usize = 82;

pub type Report = [u32; REPORT];

// The words of all parties: trays handed in, and refused ones.
const HANDED_AT: usize = 0;

const REFUSED_AT: usize = 1;

// At most so many trays are handed in.
const MAX_SITTINGS: u32 = 64;

// The unit of the number that is returned.
const NUMBER: u64 = 65536;

// No tray has been handed in.
pub fn set_empty(report: &mut Report)
    ensures { report.new ≡ report_of [] }
{
    *report = [0u32; REPORT];
}

// A tray is handed in: 65,536 × 25 where 64 were handed in already, 65,536 × 15 or 16 for a refused one, else 0.
// Kept: a number, since the space hands it on to C as it is.
pub fn add(report: &mut Report, tray: &[u8]) -> u64
    ensures { Added report.old tray.now result report.new }
{
    if MAX_SITTINGS <= report[HANDED_AT] {
        return NUMBER * u64::from(Refusal::Sittings.number());
    }
    report[HANDED_AT] += 1;
    match refusal(tray) {
        Ok(()) => {
            add_sitting(report, tray);
            0
        }
        Err(refused) => {
            report[REFUSED_AT] = report[REFUSED_AT].wrapping_add(1);
            NUMBER * u64::from(refused.number())
        }
    }
}
