// What a frame ends with: service, the look-ups that get nothing, and in a tick what ends now.
#![tactic(auto)]

pub mod answers;
pub mod bells;
pub mod closing;
mod service;
mod tick;

ghost use Rattle.std.specs.Prelude.{◌+◌, ◌*◌, ◌≤◌, length};
ghost use Rattle.rules.specs.Numbers.{max_txns, max_waits, record_size};
ghost use Rattle.rules.specs.Words.{view};
ghost use Rattle.finish.specs.Does.{Does};
ghost use Rattle.finish.specs.Ending.{Both, Tick, first_free, finished_by};
ghost use Rattle.finish.specs.From.{service_from};

use crate::closing::{close_in_vain, close_waits};
use crate::service::serve_waits;
use crate::tick::lapse;
use rules::Entry;
use words::rows::{Words, row_count};

// Service, from a row on.
pub fn serve(space: &mut Words, answers: &mut [u8], count: usize, from: usize) -> usize
    requires { record_size * (count + max_waits) ≤ length answers.old }
    ensures { Does (service_from from (view space.old)) space.new
        answers.old answers.new count result }
{
    if row_count::<Entry>(space) <= from {
        return count;
    }
    serve_waits(space, answers, count, from)
}

// A transaction has ended, and the entries before row `from` are as they were: service, and then nothings for those who
// wait in vain from now on.
pub fn serve_and_close(space: &mut Words, answers: &mut [u8], count: usize, from: usize) -> usize
    requires { record_size * (count + max_waits) ≤ length answers.old }
    ensures { Does (finished_by Both from (view space.old)) space.new
        answers.old answers.new count result }
{
    let served = serve(space, answers, count, from);
    close_in_vain(space, answers, served)
}

// Service in a tick in which so many transactions have ended: nothing else sets an entry free.
fn serve_ended(space: &mut Words, answers: &mut [u8], count: usize, ended: usize) -> usize
    requires { record_size * (count + max_waits) ≤ length answers.old }
    ensures { Does (service_from (first_free Tick 0 ended) (view space.old)) space.new
        answers.old answers.new count result }
{
    if ended == 0 {
        return count;
    }
    serve(space, answers, count, 0)
}

// The clock has advanced: what ends now, service, and the nothings.
pub fn finish_tick(space: &mut Words, answers: &mut [u8], count: usize) -> usize
    requires { record_size * (count + max_txns + max_waits) ≤ length answers.old }
    ensures { Does (finished_by Tick 0 (view space.old)) space.new
        answers.old answers.new count result }
{
    let ended = lapse(space, answers, count);
    let served = serve_ended(space, answers, ended, ended - count);
    close_waits(space, answers, served)
}
