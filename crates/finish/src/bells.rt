// Bells: where registrations live, what a step makes public is counted, and each that matches some of it gives a record
// after all others.
ghost use Rattle.std.specs.Prelude.{not, ◌&&◌, ◌≡◌, ◌+◌, ◌*◌, ◌≤◌, eqb, length};
ghost use Rattle.rules.specs.Numbers.{max_registrations, max_waits, record_size};
ghost use Rattle.rules.specs.Words.{view};
ghost use Rattle.finish.specs.Does.{Adds, Does};
ghost use Rattle.holds.specs.Registry.{match_count};
ghost use Rattle.finish.specs.Bells.{rung_by, served_and_rung};

use crate::answers::add_record;
use crate::serve;
use codec::records::rung_record;
use holds::registry::{Counts, count_written, hear};
use rules::{Mark, Registration};
use words::iter::rows;
use words::rows::{Words, row_count};

// A record for each registration whose count is not 0, by number.
pub fn put_bells(space: &Words, answers: &mut [u8], count: usize, counts: &Counts) -> usize
    requires { record_size * (count + max_registrations) ≤ length answers.old }
    ensures { Adds (rung_by counts.now (view space.now).registrations)
        answers.old answers.new count result }
{
    let mut done = count;
    for (i, g) in rows::<Registration>(space).enumerate() {
        if counts[i] == 0 {
            continue;
        }
        done = add_record(answers, done, rung_record(counts[i], g));
    }
    done
}

// Whether registrations may hear of a write outside transactions: some live, and its entry is stored.
pub fn may_ring(space: &Words, lease: u32) -> bool
    ensures { result ≡ (not (eqb (length (view space.now).registrations) 0) && not (eqb lease 0)) }
{
    row_count::<Registration>(space) != 0 && lease != 0
}

// Service from a row on, once an entry with these fields is made public: registrations hear of it first, and their
// bells come last.
pub fn serve_and_ring(
    space: &mut Words,
    answers: &mut [u8],
    count: usize,
    from: usize,
    fields: Mark,
) -> usize
    requires { record_size * (count + max_waits + max_registrations) ≤ length answers.old }
    ensures { Does (served_and_rung (match_count fields) from (view space.old)) space.new
        answers.old answers.new count result }
{
    let counts = count_written(space, fields);
    hear(space, &counts);
    let served = serve(space, answers, count, from);
    put_bells(space, answers, served, &counts)
}
