// What ends in a tick: transactions and entries.
ghost use Rattle.std.specs.Prelude.{◌≡◌, ◌+◌, ◌*◌, ◌≤◌, map, length};
ghost use Rattle.rules.specs.Lists.{findb};
ghost use Rattle.rules.specs.Numbers.{max_txns, record_size};
ghost use Rattle.rules.specs.Records.{exception};
ghost use Rattle.rules.specs.Tick.{ended_txns, abort_all, lapsed};
ghost use Rattle.rules.specs.Time.{reached};
ghost use Rattle.rules.specs.Words.{view};
ghost use Rattle.available.specs.Live.{live_of};
ghost use Rattle.finish.specs.Does.{Adds, Does};

use crate::answers::add_each;
use codec::records::plain_record;
use holds::endings::abort_txn;
use holds::sweep::drop_ended;
use rules::Txn;
use rules::numbers::KIND_EXCEPTION;
use words::iter::rows;
use words::rows::{Words, clock};

// An exception for each transaction that ends now, by number.
pub(crate) fn put_exceptions(space: &Words, answers: &mut [u8], count: usize) -> usize
    requires { record_size * (count + max_txns) ≤ length answers.old }
    ensures { Adds (map exception (ended_txns (view space.now)))
        answers.old answers.new count result }
{
    let now = clock(space);
    add_each(space, answers, count, |t: Txn| {
        t.end
            .is_reached(now)
            .then_some(plain_record(KIND_EXCEPTION, t.party, t.id))
    })
}

// The first live transaction that ends now.
pub(crate) fn first_ended(space: &Words) -> Option<Txn>
    ensures { live_of result
        ≡ findb (λ t. reached (view space.now).clock t.end) (view space.now).txns }
{
    let now = clock(space);
    rows::<Txn>(space).find(|t| t.end.is_reached(now))
}

// The transactions that end now are aborted, by number.
pub(crate) fn abort_ended(space: &mut Words)
    ensures { view space.new
        ≡ abort_all (ended_txns (view space.old)) (view space.old) }
{
    while let Some(t) = first_ended(space) {
        abort_txn(space, t.id);
    }
}

// The transactions that end now are aborted, by number, each with an exception; stored entries that end now are
// removed, held or not.
pub(crate) fn lapse(space: &mut Words, answers: &mut [u8], count: usize) -> usize
    requires { record_size * (count + max_txns) ≤ length answers.old }
    ensures { Does (lapsed (view space.old)) space.new
        answers.old answers.new count result }
{
    let done = put_exceptions(space, answers, count);
    abort_ended(space);
    drop_ended(space);
    done
}
