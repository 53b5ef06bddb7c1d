// A frame's bytes, decoded into a request or one of the refusals 2 to 5 and 21.
#![tactic(auto, unfolding(rules::specs::Frame::frame_length, rules::specs::Frame::layout_of))]

ghost use Rattle.std.specs.Prelude.{◌≡◌, ◌≢◌, ◌<◌, ◌≤◌, length, MatchResult};
ghost use Rattle.rules.specs.Numbers.{op_write, op_read, op_take_if_exists, op_create, op_commit, op_abort, op_tick};
ghost use Rattle.rules.specs.Numbers.{op_notify};
ghost use Rattle.rules.specs.Numbers.{op_renew};
ghost use Rattle.rules.specs.Frame.{byte_at, frame_length};
ghost use Rattle.rules.specs.Template.{bit};
ghost use Rattle.rules.specs.Refusals.{some_filled, bad_template, bad_blanks, bad_arc};
ghost use Rattle.rules.specs.Requests.{number_of, Decodes};
ghost use Rattle.codec.specs.Head.{no_party, head_refusal, template_refusal};

use crate::bytes::{byte_at, fields_at, number_at};
use crate::places::{
    ENTRY_NAMED_AT, FIELDS_AT, FIELDS_END, LEASE_AT, MASK_AT, PARTY_AT, TXN_AT, ZERO_AT,
};
use rules::bits::has_bit;
use rules::look_up::{is_if_exists, is_take};
use rules::numbers::{
    ARC_LENGTH, MAX_PARTY, OP_ABORT, OP_COMMIT, OP_CREATE, OP_NOTIFY, OP_READ, OP_RENEW,
    OP_TAKE_IF_EXISTS, OP_TICK, OP_WRITE, PLACES,
};
use rules::{
    EntryId, Fields, FindRequest, NotifyRequest, Refusal, RenewRequest, Request, TxnId,
    WriteRequest,
};

// The mask of a write at most: four fields may be blank.
const MAX_BLANKS: u8 = 15;

// That of a template: bit 4 without bit 3, and the three below.
const MAX_TEMPLATE_MASK: u8 = 23;

// Whether a field is not 0 of those that must be.
// Kept: four tests: a loop over four flags beside four fields is no shorter.
fn is_some_filled(kind: bool, side: bool, image: bool, place: bool, fields: Fields) -> bool
    ensures { result ≡ some_filled kind side image place fields }
{
    kind & (fields.kind != 0)
        | side & (fields.side != 0)
        | image & (fields.image != 0)
        | place & (fields.place != 0)
}

// Whether a template's field is not 0 where its bit is 0.
fn is_bad_template(mask: u8, fields: Fields) -> bool
    ensures { result ≡ bad_template mask fields }
{
    is_some_filled(
        !has_bit(mask, 0),
        !has_bit(mask, 1),
        !has_bit(mask, 2),
        !(has_bit(mask, 3) | has_bit(mask, 4)),
        fields,
    )
}

// Whether a write's field is not 0 where its bit says that it is blank.
fn is_bad_blanks(mask: u8, fields: Fields) -> bool
    ensures { result ≡ bad_blanks mask fields }
{
    is_some_filled(
        has_bit(mask, 0),
        has_bit(mask, 1),
        has_bit(mask, 2),
        has_bit(mask, 3),
        fields,
    )
}

// Refusal 5: a party other than 1 to 16, or than 0 for tick.
fn is_wrong_party(party: u8, op: u8) -> bool
    ensures { result ≡ no_party op party }
{
    if op == OP_TICK {
        party != 0
    } else {
        (party == 0) | (MAX_PARTY < party)
    }
}

// The refusals 4 and 5 of a frame as long as its operation's are, `bad` being what 4 finds wrong besides byte 3.
fn check_head(frame: &[u8], op: u8, bad: bool) -> Result<(), Refusal>
    requires { 4 ≤ length frame.now }
    ensures { number_of result ≡ head_refusal frame.now op bad }
{
    if (frame[ZERO_AT] != 0) | bad {
        return Err(Refusal::Form);
    }
    if is_wrong_party(frame[PARTY_AT], op) {
        return Err(Refusal::Party);
    }
    Ok(())
}

// Refusal 21: an arc that starts off the face, or is longer than it.
fn is_bad_arc(mask: u8, arc: u32) -> bool
    ensures { result ≡ bad_arc mask arc }
{
    has_bit(mask, 4) & ((PLACES <= arc % ARC_LENGTH) | (PLACES <= arc / ARC_LENGTH))
}

// The refusals 4, 5 and 21 of a frame with a template, `bad` being what 4 finds wrong besides byte 3, mask and
// template.
fn check_template(frame: &[u8], op: u8, fields: Fields, bad: bool) -> Result<(), Refusal>
    requires { 4 ≤ length frame.now }
    ensures { number_of result ≡ template_refusal frame.now op fields bad }
{
    let mask = frame[MASK_AT];
    check_head(
        frame,
        op,
        (MAX_TEMPLATE_MASK < mask) | is_bad_template(mask, fields) | bad,
    )?;
    if is_bad_arc(mask, fields.place) {
        return Err(Refusal::Place);
    }
    Ok(())
}

// The length of an operation's frames, worked out from the operation: a frame ends where the first part would begin
// that its operation's frames do not have (fields, lease or timeout, transaction); 0 if it is no operation.
//
// Kept: a match from operations to lengths would be the constant table that document 02 did away with.
pub(crate) fn length_of(op: u8) -> usize
    ensures { result ≡ frame_length op }
{
    if (op == 0) | (OP_RENEW < op) {
        return 0;
    }
    if (op <= OP_TAKE_IF_EXISTS) | (op == OP_NOTIFY) {
        return FIELDS_END;
    }
    if (op <= OP_CREATE) | (op == OP_RENEW) {
        return FIELDS_AT;
    }
    if op <= OP_ABORT {
        return LEASE_AT;
    }
    TXN_AT
}

// Refusal 3: another length than the operation's.
fn check_length(frame: &[u8], op: u8) -> Result<(), Refusal>
    ensures { MatchResult result (λ _. length frame.now ≡ frame_length op)
        (λ r. (r ≡ Refusal.Length) × (length frame.now ≢ frame_length op)) }
{
    if frame.len() != length_of(op) {
        return Err(Refusal::Length);
    }
    Ok(())
}

fn decode_write(frame: &[u8]) -> Result<Request, Refusal>
    requires { byte_at frame.now 0 ≡ op_write }
    ensures { Decodes frame.now result }
{
    check_length(frame, OP_WRITE)?;
    let mask = frame[MASK_AT];
    let fields = fields_at(frame, FIELDS_AT);
    check_head(
        frame,
        OP_WRITE,
        (MAX_BLANKS < mask) | is_bad_blanks(mask, fields),
    )?;
    Ok(Request::Write(WriteRequest {
        party: frame[PARTY_AT],
        blanks: mask,
        txn: TxnId(number_at(frame, TXN_AT)),
        lease: number_at(frame, LEASE_AT),
        fields,
    }))
}

// All look-ups are as long as a read.
fn decode_find(frame: &[u8], op: u8) -> Result<Request, Refusal>
    requires { (op ≡ byte_at frame.now 0) × (op_read ≤ op) × (op ≤ op_take_if_exists) }
    ensures { Decodes frame.now result }
{
    check_length(frame, OP_READ)?;
    let mask = frame[MASK_AT];
    let fields = fields_at(frame, FIELDS_AT);
    check_template(frame, op, fields, false)?;
    Ok(Request::Find(FindRequest {
        party: frame[PARTY_AT],
        takes: is_take(u32::from(op)),
        if_exists: is_if_exists(u32::from(op)),
        mask,
        txn: TxnId(number_at(frame, TXN_AT)),
        timeout: number_at(frame, LEASE_AT),
        fields,
    }))
}

fn decode_create(frame: &[u8]) -> Result<Request, Refusal>
    requires { byte_at frame.now 0 ≡ op_create }
    ensures { Decodes frame.now result }
{
    check_length(frame, OP_CREATE)?;
    check_head(
        frame,
        OP_CREATE,
        (frame[MASK_AT] != 0) | (number_at(frame, TXN_AT) != 0),
    )?;
    Ok(Request::Create(frame[PARTY_AT], number_at(frame, LEASE_AT)))
}

// An abort is as long as a commit.
fn decode_ending(frame: &[u8], op: u8) -> Result<Request, Refusal>
    requires { (op ≡ byte_at frame.now 0) × (op_commit ≤ op) × (op ≤ op_abort) }
    ensures { Decodes frame.now result }
{
    check_length(frame, OP_COMMIT)?;
    check_head(frame, op, frame[MASK_AT] != 0)?;
    let party = frame[PARTY_AT];
    let txn = TxnId(number_at(frame, TXN_AT));
    if op == OP_COMMIT {
        Ok(Request::Commit(party, txn))
    } else {
        Ok(Request::Abort(party, txn))
    }
}

fn decode_tick(frame: &[u8]) -> Result<Request, Refusal>
    requires { byte_at frame.now 0 ≡ op_tick }
    ensures { Decodes frame.now result }
{
    check_length(frame, OP_TICK)?;
    check_head(frame, OP_TICK, frame[MASK_AT] != 0)?;
    Ok(Request::Tick)
}

// As long as a read, and judged as one; it names no transaction.
fn decode_notify(frame: &[u8]) -> Result<Request, Refusal>
    requires { byte_at frame.now 0 ≡ op_notify }
    ensures { Decodes frame.now result }
{
    check_length(frame, OP_NOTIFY)?;
    let mask = frame[MASK_AT];
    let fields = fields_at(frame, FIELDS_AT);
    check_template(frame, OP_NOTIFY, fields, number_at(frame, TXN_AT) != 0)?;
    Ok(Request::Notify(NotifyRequest {
        party: frame[PARTY_AT],
        mask,
        lease: number_at(frame, LEASE_AT),
        fields,
    }))
}

fn decode_renew(frame: &[u8]) -> Result<Request, Refusal>
    requires { byte_at frame.now 0 ≡ op_renew }
    ensures { Decodes frame.now result }
{
    check_length(frame, OP_RENEW)?;
    check_head(frame, OP_RENEW, frame[MASK_AT] != 0)?;
    Ok(Request::Renew(RenewRequest {
        entry: EntryId(number_at(frame, ENTRY_NAMED_AT)),
        party: frame[PARTY_AT],
        lease: number_at(frame, LEASE_AT),
    }))
}

// What a frame asks for, or the first of the refusals 2 to 5 and 21 that applies. An empty frame's operation is read
// as 0, which is none.
pub fn decode(frame: &[u8]) -> Result<Request, Refusal>
    ensures { Decodes frame.now result }
{
    let op = byte_at(frame, 0);
    match op {
        OP_WRITE => decode_write(frame),
        OP_READ..=OP_TAKE_IF_EXISTS => decode_find(frame, op),
        OP_CREATE => decode_create(frame),
        OP_COMMIT..=OP_ABORT => decode_ending(frame, op),
        OP_TICK => decode_tick(frame),
        OP_NOTIFY => decode_notify(frame),
        OP_RENEW => decode_renew(frame),
        _ => Err(Refusal::Operation),
    }
}
