// Who holds what: templates, read holders, availability.
ghost use Rattle.std.specs.Prelude.{◌≡◌, ◌+◌, ◌-◌, ◌%◌, ◌≤◌, ◌<◌, false, ◌&&◌, ◌||◌, eqb};
ghost use Rattle.rules.specs.Numbers.{places};
ghost use Rattle.rules.specs.Places.{in_arc};
ghost use Rattle.rules.specs.Template.{bit, agrees, asked_equal, asks_arc, lies, matches};
ghost use Rattle.rules.specs.Holds.{is_other, others_if, read_by_other, available, conflicts};
ghost use Rattle.rules.specs.Words.{view};
ghost use Rattle.available.specs.Live.{no_slot};
ghost use Rattle.available.specs.Find.{blank_asked};
ghost use Rattle.available.specs.Readers.{left_over};
ghost use Rattle.available.specs.Readers.{add_at, drop_at};

use crate::live::{NO_SLOT, slot_of};
use rules::bits::has_bit;
use rules::numbers::{ARC_LENGTH, PLACES};
use rules::{Entry, Fields, LookUp, Mark, TxnId};
use words::rows::Words;

// The read holders x without the one at slot p; at none, none is dropped.
#[tactic(auto, unfolding(rules::specs::Holds::drop_reader))]
pub fn drop_reader(x: u8, p: u8) -> u8
    requires { p ≤ no_slot }
    ensures { result ≡ drop_at p x }
{
    if p == NO_SLOT {
        return x;
    }
    if has_bit(x, p) { x - (1 << p) } else { x }
}

// The read holders x with the one at slot p; at none, none is added.
#[tactic(auto, unfolding(rules::specs::Holds::add_reader))]
pub fn add_reader(x: u8, p: u8) -> u8
    requires { p ≤ no_slot }
    ensures { result ≡ add_at p x }
{
    if p == NO_SLOT {
        return x;
    }
    if has_bit(x, p) { x } else { x + (1 << p) }
}

// Whether the template asks nothing of the field at bit p, or the two are equal.
pub(crate) fn field_agrees(mask: u8, p: u8, want: u32, have: u32) -> bool
    requires { p < 8 }
    ensures { result ≡ agrees (bit p mask) false want have }
{
    !has_bit(mask, p) || want == have
}

// Whether the template asks for a field that is blank.
pub(crate) fn is_blank_asked(mask: u8, blanks: u8) -> bool
    ensures { result ≡ blank_asked mask blanks }
{
    has_bit(mask, 0) && has_bit(blanks, 0)
        || has_bit(mask, 1) && has_bit(blanks, 1)
        || has_bit(mask, 2) && has_bit(blanks, 2)
        || has_bit(mask, 3) && has_bit(blanks, 3)
}

// Whether every field that the template asks for is equal.
#[tactic(auto, using(crate::proofs::MatchLaws::match_is))]
pub(crate) fn is_equal(mask: u8, want: Fields, have: Mark) -> bool
    ensures { result ≡ asked_equal mask want have }
{
    !is_blank_asked(mask, have.blanks)
        && field_agrees(mask, 0, want.kind, have.kind)
        && field_agrees(mask, 1, want.side, have.side)
        && field_agrees(mask, 2, want.image, have.image)
        && field_agrees(mask, 3, want.place, have.place)
}

// Whether the template asks for an arc.
pub(crate) fn asks_arc(mask: u8) -> bool
    ensures { result ≡ asks_arc mask }
{
    has_bit(mask, 4) && !has_bit(mask, 3)
}

// How far a place lies behind a start, round the face.
pub(crate) fn distance(place: u32, start: u32) -> u32
    requires { place < places }
    ensures { result ≡ (place + places - start) % places }
{
    let round = place + PLACES;
    if round < start {
        return 0;
    }
    (round - start) % PLACES
}

// Whether a place lies in the arc.
#[tactic(auto, unfolding(rules::specs::Places::in_arc))]
pub(crate) fn in_arc(arc: u32, place: u32) -> bool
    ensures { result ≡ in_arc arc place }
{
    place < PLACES && distance(place, arc % ARC_LENGTH) <= arc / ARC_LENGTH
}

// Whether a place is no blank and lies in the arc, where the template asks for one.
pub(crate) fn is_placed(mask: u8, arc: u32, have: Mark) -> bool
    ensures { result ≡ lies (asks_arc mask) (bit 3 have.blanks) arc have.place }
{
    !asks_arc(mask) || !has_bit(have.blanks, 3) && in_arc(arc, have.place)
}

#[tactic(auto, unfolding(rules::specs::Template::matches))]
pub fn fields_match(mask: u8, want: Fields, have: Mark) -> bool
    ensures { result ≡ matches mask want have }
{
    is_equal(mask, want, have) && is_placed(mask, want.place, have)
}

// Whether no live transaction but the one at slot p holds a read: no bit is 1, or one, at p.
pub(crate) fn free_but(x: u8, p: u8) -> bool
    requires { p ≤ no_slot }
    ensures { result ≡ eqb (drop_at p x) 0 }
{
    let n = x.count_ones();
    n == 0 || n == 1 && x.trailing_zeros() == u32::from(p)
}

// Whether it is visible to a look-up in the transaction t.
pub(crate) fn is_visible(private_to: TxnId, taken_by: TxnId, t: TxnId) -> bool
    ensures { result ≡ (eqb taken_by.0 0 && (eqb private_to.0 0 || eqb private_to.0 t.0)) }
{
    taken_by == TxnId::NONE && (private_to == TxnId::NONE || private_to == t)
}

// Whether a read hold of another than the transaction t bars t's look-up. Most entries have no read hold: then the slot
// is not looked for.
#[tactic(auto, using(crate::proofs::ReaderLaws::left_over_lem, crate::proofs::ReaderLaws::not_barred))]
pub(crate) fn is_barred(space: &Words, takes: bool, readers: u8, t: TxnId) -> bool
    ensures { result ≡ (takes && left_over (view space.now).txns t.0 readers) }
{
    takes & (readers != 0) && !free_but(readers, slot_of(space, t))
}

// Whether the entry is available to the look-up.
#[tactic(auto, unfolding(rules::specs::Holds::available))]
pub fn is_available(space: &Words, e: Entry, w: LookUp) -> bool
    ensures { result ≡ available (view space.now).txns w e }
{
    fields_match(w.mask, w.fields, e.fields)
        && is_visible(e.private_to, e.taken_by, w.txn)
        && !is_barred(space, w.takes, e.readers, w.txn)
}

// Whether n is the number of a transaction other than t.
pub(crate) fn is_other(t: TxnId, n: TxnId) -> bool
    ensures { result ≡ is_other t.0 n.0 }
{
    n != TxnId::NONE && n != t
}

// Whether another transaction than the look-up's has the entry: it is private to it, take-held by it, or (for a take)
// read-held.
#[tactic(auto, unfolding(rules::specs::Holds::read_by_other))]
pub(crate) fn is_others(space: &Words, e: Entry, w: LookUp) -> bool
    ensures { result ≡ others_if (read_by_other (view space.now).txns w.txn.0 e) w e }
{
    is_other(w.txn, e.private_to)
        || is_other(w.txn, e.taken_by)
        || is_barred(space, w.takes, e.readers, w.txn)
}

// Whether the entry conflicts with the look-up. Where another transaction has it, it is not available: that needs no
// test.
#[tactic(auto, using(crate::proofs::ConflictLaws::others_conflict))]
pub(crate) fn is_conflicting(space: &Words, e: Entry, w: LookUp) -> bool
    ensures { result ≡ conflicts (view space.now).txns w e }
{
    fields_match(w.mask, w.fields, e.fields) && is_others(space, e, w)
}
