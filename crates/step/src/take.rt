// A request taken up, kind by kind: what is new is noted, the request is judged, carried out, its own record first, and
// finished. What is new is noted whether or not it is refused: hints may say less than is so.
ghost use Rattle.std.specs.Prelude.{◌≤◌, length};
ghost use Rattle.rules.specs.Numbers.{step_area};
ghost use Rattle.rules.specs.Requests.{renew_of};
ghost use Rattle.rules.specs.Words.{view};
ghost use Rattle.rules.specs.declared.Request.TheVariants.{Write, Find, Create, Commit, Abort, Notify, Tick};
ghost use Rattle.hints.specs.Hints.{Reliable};
ghost use Rattle.step.specs.Carries.{Taken};

use crate::look_up::look_up;
use crate::own::{abort, advance, commit, create, end_idle, notify};
use crate::write::write;
use codec::records::{mark_of, renewed_record};
use finish::answers::add_record;
use finish::bells::{may_ring, put_bells, serve_and_ring};
use finish::{finish_tick, serve, serve_and_close};
use hints::known::Hints;
use holds::registry::{count_committed, drop_registrations, hear};
use holds::renew::{find_entry, renew_entry};
use judge::Judge;
use rules::numbers::{KIND_ABORTED, KIND_COMMITTED};
use rules::{FindRequest, NotifyRequest, Refusal, RenewRequest, Request, TxnId, WriteRequest};
use words::rows::{Words, clock};

// An entry may be stored, in a transaction that then has done something. Service follows a write outside transactions,
// and then the bells of those who hear of it.
// Kept: three things lent at once: a struct of three `&mut` would be taken apart in the first line (DECISIONS 127).
pub(crate) fn take_write(
    space: &mut Words,
    hints: &mut Hints,
    answers: &mut [u8],
    w: WriteRequest,
) -> Result<usize, Refusal>
    requires { (step_area ≤ length answers.old) × Reliable hints.old (view space.old) }
    ensures { Taken space.old (Write w) answers.old result space.new answers.new hints.new }
{
    hints.note_stored(clock(space), w.lease);
    hints.note_acted(w.txn);
    Judge { space, hints }.check_write(w)?;
    let own = write(space, w);
    let count = add_record(answers, 0, own.answer);
    if w.txn != TxnId::NONE {
        return Ok(count);
    }
    if may_ring(space, w.lease) {
        let fields = mark_of(w.blanks, w.fields);
        return Ok(serve_and_ring(space, answers, count, own.from, fields));
    }
    Ok(serve(space, answers, count, own.from))
}

// A look-up that waits waits last.
pub(crate) fn take_find(
    space: &mut Words,
    hints: &mut Hints,
    answers: &mut [u8],
    l: FindRequest,
) -> Result<usize, Refusal>
    requires { (step_area ≤ length answers.old) × Reliable hints.old (view space.old) }
    ensures { Taken space.old (Find l) answers.old result space.new answers.new hints.new }
{
    hints.note_acted(l.txn);
    Judge { space, hints }.check_find(l)?;
    let count = look_up(space, answers, l);
    hints.note_last(space);
    Ok(count)
}

pub(crate) fn take_create(
    space: &mut Words,
    hints: &mut Hints,
    answers: &mut [u8],
    party: u8,
    lease: u32,
) -> Result<usize, Refusal>
    requires { (step_area ≤ length answers.old) × Reliable hints.old (view space.old) }
    ensures { Taken space.old (Create party lease) answers.old result space.new answers.new hints.new }
{
    hints.note_lease(clock(space), lease);
    Judge { space, hints }.check_create(party, lease)?;
    let answer = create(space, party, lease);
    Ok(add_record(answers, 0, answer))
}

// What a commit makes public is counted before it is released; the bells come after all other records.
pub(crate) fn take_commit(
    space: &mut Words,
    hints: &mut Hints,
    answers: &mut [u8],
    party: u8,
    id: TxnId,
) -> Result<usize, Refusal>
    requires { (step_area ≤ length answers.old) × Reliable hints.old (view space.old) }
    ensures { Taken space.old (Commit party id) answers.old result space.new answers.new hints.new }
{
    Judge { space, hints }.check_commit(party, id)?;
    if hints.is_idle(id) {
        let answer = end_idle(space, KIND_COMMITTED, party, id);
        return Ok(add_record(answers, 0, answer));
    }
    let counts = count_committed(space, id);
    let own = commit(space, party, id);
    hear(space, &counts);
    let count = add_record(answers, 0, own.answer);
    let closed = serve_and_close(space, answers, count, own.from);
    Ok(put_bells(space, answers, closed, &counts))
}

pub(crate) fn take_abort(
    space: &mut Words,
    hints: &mut Hints,
    answers: &mut [u8],
    party: u8,
    id: TxnId,
) -> Result<usize, Refusal>
    requires { (step_area ≤ length answers.old) × Reliable hints.old (view space.old) }
    ensures { Taken space.old (Abort party id) answers.old result space.new answers.new hints.new }
{
    Judge { space, hints }.check_abort(party, id)?;
    if hints.is_idle(id) {
        let answer = end_idle(space, KIND_ABORTED, party, id);
        return Ok(add_record(answers, 0, answer));
    }
    let own = abort(space, party, id);
    let count = add_record(answers, 0, own.answer);
    Ok(serve_and_close(space, answers, count, own.from))
}

// An entry may get another end. The one that a renewal names is looked for once: 18 if there is none, and its row for
// what is done.
pub(crate) fn take_renew(
    space: &mut Words,
    hints: &mut Hints,
    answers: &mut [u8],
    q: RenewRequest,
) -> Result<usize, Refusal>
    requires { (step_area ≤ length answers.old) × Reliable hints.old (view space.old) }
    ensures { Taken space.old (renew_of q.party q.entry q.lease) answers.old result
        space.new answers.new hints.new }
{
    hints.note_stored(clock(space), q.lease);
    let judge = Judge { space, hints };
    if judge.waits_already(q.party, None) {
        return Err(Refusal::Waiting);
    }
    let Some((e, row)) = find_entry(space, q.entry) else {
        return Err(Refusal::NoEntry);
    };
    judge.check_entry(q.party, e, q.lease)?;
    renew_entry(space, row, e, q.lease);
    let answer = renewed_record(q.party, q.entry, q.lease);
    Ok(add_record(answers, 0, answer))
}

pub(crate) fn take_notify(
    space: &mut Words,
    hints: &mut Hints,
    answers: &mut [u8],
    q: NotifyRequest,
) -> Result<usize, Refusal>
    requires { (step_area ≤ length answers.old) × Reliable hints.old (view space.old) }
    ensures { Taken space.old (Notify q) answers.old result space.new answers.new hints.new }
{
    hints.note_lease(clock(space), q.lease);
    Judge { space, hints }.check_notify(q)?;
    let answer = notify(space, q);
    Ok(add_record(answers, 0, answer))
}

// Before anything ends, a tick only advances the clock.
pub(crate) fn take_tick(
    space: &mut Words,
    hints: &mut Hints,
    answers: &mut [u8],
) -> Result<usize, Refusal>
    requires { (step_area ≤ length answers.old) × Reliable hints.old (view space.old) }
    ensures { Taken space.old Tick answers.old result space.new answers.new hints.new }
{
    Judge { space, hints }.check_tick()?;
    let answer = advance(space);
    let count = add_record(answers, 0, answer);
    if clock(space) < hints.least_end() {
        return Ok(count);
    }
    drop_registrations(space);
    let finished = finish_tick(space, answers, count);
    hints.renew_reached(space);
    Ok(finished)
}

// A request, by its kind.
pub(crate) fn take_up(
    space: &mut Words,
    hints: &mut Hints,
    answers: &mut [u8],
    q: Request,
) -> Result<usize, Refusal>
    requires { (step_area ≤ length answers.old) × Reliable hints.old (view space.old) }
    ensures { Taken space.old q answers.old result space.new answers.new hints.new }
{
    match q {
        Request::Write(w) => take_write(space, hints, answers, w),
        Request::Find(l) => take_find(space, hints, answers, l),
        Request::Create(party, lease) => take_create(space, hints, answers, party, lease),
        Request::Commit(party, id) => take_commit(space, hints, answers, party, id),
        Request::Abort(party, id) => take_abort(space, hints, answers, party, id),
        Request::Renew(r) => take_renew(space, hints, answers, r),
        Request::Notify(n) => take_notify(space, hints, answers, n),
        Request::Tick => take_tick(space, hints, answers),
    }
}
