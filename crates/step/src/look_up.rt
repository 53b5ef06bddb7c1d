// The own part of a look-up.
ghost use Rattle.std.specs.Prelude.{◌≡◌, ◌≤◌, length, Ok};
ghost use Rattle.std.proofs.Math.Option.{none};
ghost use Rattle.rules.specs.LookUp.{look_up_of, gives_nothing, answer, look_up};
ghost use Rattle.rules.specs.Allowed.{Stepped};
ghost use Rattle.rules.specs.Numbers.{step_area};
ghost use Rattle.rules.specs.Requests.{frame_of, space_refusal, Decodes};
ghost use Rattle.rules.specs.Words.{view};
ghost use Rattle.rules.specs.declared.Request.TheVariants.{Find};
ghost use Rattle.words.specs.Ends.{InTime};
ghost use Rattle.tables.specs.Rows.{FitsWord};
ghost use Rattle.step.specs.Carries.{Carries};
ghost use Rattle.judge.specs.Judge.{CanWait, Ready};

use available::find::{any_conflict, find_available};
use codec::records::{found_record, plain_record};
use finish::answers::add_record;
use finish::closing::close_in_vain;
use holds::hand::hand_out;
use rules::numbers::{KIND_NOTHING, KIND_WAITING};
use rules::{FindRequest, LookUp, Record, TxnId};
use words::rows::{Words, add_wait, clock};
use words::time::end_of;

// The look-up that a request asks for.
pub(crate) fn look_up_of(space: &Words, l: FindRequest) -> LookUp
    requires { InTime (view space.now).clock l.timeout }
    ensures { (result ≡ look_up_of (view space.now) (frame_of (Find l))) × FitsWord result.deadline }
{
    LookUp {
        party: l.party,
        takes: l.takes,
        if_exists: l.if_exists,
        mask: l.mask,
        fields: l.fields,
        txn: l.txn,
        deadline: end_of(clock(space), l.timeout),
    }
}

// Whether a look-up to which no entry is available gets nothing: at timeout 0, and for the IfExists kinds where none
// conflicts.
#[tactic(auto, unfolding(rules::specs::LookUp::gives_nothing))]
pub(crate) fn gives_nothing(space: &Words, w: LookUp, timeout: u32) -> bool
    ensures { result ≡ gives_nothing (view space.now) w timeout }
{
    timeout == 0 || w.if_exists && !any_conflict(space, w)
}

// A look-up to which no entry is available gets nothing, or waits, where there is room for it.
// Kept: `FitsWord` is asked for: `Until` is the model's own type in the rules, where a tick may be any number.
pub(crate) fn wait_or_nothing(space: &mut Words, w: LookUp, timeout: u32) -> Record
    requires { FitsWord w.deadline }
    ensures { CanWait (view space.old)
        → Carries (answer (view space.old) w timeout none) space.new result }
{
    if gives_nothing(space, w, timeout) {
        return plain_record(KIND_NOTHING, w.party, w.txn);
    }
    add_wait(space, w);
    plain_record(KIND_WAITING, w.party, w.txn)
}

// A look-up: found, nothing or waiting. The entries are looked for once.
pub(crate) fn find(space: &mut Words, l: FindRequest) -> Record
    requires { space_refusal (view space.old) (frame_of (Find l)) ≡ 0 }
    ensures { Ready (view space.old)
        → Carries (look_up (view space.old) (frame_of (Find l))) space.new result }
{
    let w = look_up_of(space, l);
    let Some((e, row)) = find_available(space, w) else {
        return wait_or_nothing(space, w, l.timeout);
    };
    hand_out(space, row, e, w);
    found_record(w, e)
}

// And its records. A take inside a transaction may be of the transaction's own private entry, for which others wait.
pub(crate) fn look_up(space: &mut Words, answers: &mut [u8], l: FindRequest) -> usize
    requires { (step_area ≤ length answers.old) × (space_refusal (view space.old) (frame_of (Find l)) ≡ 0) }
    ensures { (bs : _) → Decodes bs (Ok (Find l))
        → Stepped space.old bs answers.old space.new result answers.new }
{
    let answer = find(space, l);
    let count = add_record(answers, 0, answer);
    if l.takes & (l.txn != TxnId::NONE) {
        return close_in_vain(space, answers, count);
    }
    count
}
