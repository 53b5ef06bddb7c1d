// Who gets nothing when a step is over.
ghost use Rattle.std.specs.Prelude.{◌≡◌, ◌+◌, ◌*◌, ◌≤◌, length};
ghost use Rattle.rules.specs.Closing.{close_waits};
ghost use Rattle.rules.specs.Numbers.{record_size};
ghost use Rattle.rules.specs.Words.{view};
ghost use Rattle.finish.specs.Does.{Adds, Does};
ghost use Rattle.finish.specs.Ending.{some_if_exists, closed_in_vain};

use crate::answers::add_each;
use available::find::is_over;
use codec::records::plain_record;
use holds::endings::leave_over;
use rules::LookUp;
use rules::numbers::KIND_NOTHING;
use words::iter::rows;
use words::rows::Words;

// Whether a look-up of an IfExists kind waits.
pub(crate) fn any_if_exists(space: &Words) -> bool
    ensures { result ≡ some_if_exists (view space.now) }
{
    rows::<LookUp>(space).any(|w| w.if_exists)
}

// A nothing for each waiting look-up that is over, in order of arrival.
pub(crate) fn put_nothings(space: &Words, answers: &mut [u8], count: usize) -> usize
    requires { record_size * (count + length (view space.now).waits) ≤ length answers.old }
    ensures { Adds (close_waits (view space.now)).records
        answers.old answers.new count result }
{
    add_each(space, answers, count, |w: LookUp| {
        is_over(space, w).then_some(plain_record(KIND_NOTHING, w.party, w.txn))
    })
}

// Waiting look-ups whose deadline is reached, and those of an IfExists kind with no conflicting entry left, get
// nothing, in order of arrival, and wait no longer.
pub(crate) fn close_waits(space: &mut Words, answers: &mut [u8], count: usize) -> usize
    requires { record_size * (count + length (view space.old).waits) ≤ length answers.old }
    ensures { Does (close_waits (view space.old)) space.new
        answers.old answers.new count result }
{
    let done = put_nothings(space, answers, count);
    if done == count {
        return done;
    }
    leave_over(space);
    done
}

// Between ticks every deadline lies ahead: only a look-up of an IfExists kind can be over.
pub fn close_in_vain(space: &mut Words, answers: &mut [u8], count: usize) -> usize
    requires { record_size * (count + length (view space.old).waits) ≤ length answers.old }
    ensures { Does (closed_in_vain (view space.old)) space.new
        answers.old answers.new count result }
{
    if any_if_exists(space) {
        close_waits(space, answers, count)
    } else {
        count
    }
}
