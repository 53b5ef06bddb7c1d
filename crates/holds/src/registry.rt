// Registrations: made, ended, and what they hear of.
ghost use Rattle.std.specs.Prelude.{◌≡◌, ◌&&◌, ℕ, length, map, take};
ghost use Rattle.rules.specs.declared.Registration.{Registration};
ghost use Rattle.rules.specs.declared.Request.TheVariants.{Notify};
ghost use Rattle.rules.specs.Notify.{notify};
ghost use Rattle.rules.specs.Requests.{frame_of};
ghost use Rattle.rules.specs.State.{with_registrations};
ghost use Rattle.rules.specs.Template.{matches};
ghost use Rattle.rules.specs.Tick.{unregistered};
ghost use Rattle.rules.specs.Words.{view};
ghost use Rattle.holds.specs.Registry.{Notifiable, is_own, own_matching, match_count, heard_once, heard_by};

use available::holds::fields_match;
use rules::numbers::MAX_REGISTRATIONS;
use rules::{Entry, Mark, NotifyRequest, Registration, RegistrationId, TxnId};
use words::iter::rows;
use words::rows::{
    Words, add_row, clock, next_number, retain_rows, row_at, row_count, set_next_number, set_row,
};
use words::time::end_of;

// A registration is made, with the next number.
pub fn register(space: &mut Words, q: NotifyRequest) -> RegistrationId
    requires { Notifiable (view space.old) q.lease }
    ensures made { view space.new
        ≡ (notify (view space.old) (frame_of (Notify q))).model }
    ensures numbered { result.0 ≡ (view space.old).next_registration }
{
    let n = next_number::<Registration>(space);
    let made = Registration {
        id: RegistrationId(n),
        party: q.party,
        mask: q.mask,
        fields: q.fields,
        end: end_of(clock(space), q.lease),
        total: 0,
    };
    add_row(space, made);
    set_next_number::<Registration>(space, n + 1);
    made.id
}

// Registrations that end now go.
pub fn drop_registrations(space: &mut Words)
    ensures { view space.new ≡ unregistered (view space.old) }
{
    let now = clock(space);
    retain_rows::<Registration, _>(space, |_, g| !g.end.is_reached(now));
}

// How many of the entries made public in a step each registration matches, by its row.
// Kept: beside the rows, not in them: the contract of `put_bells` is over counts by row, and an array needs no heap.
pub type Counts = [u32; MAX_REGISTRATIONS];

// So many for each registration.
pub(crate) fn count_each<F: Fn(Registration) -> u32>(space: &Words, count: F) -> Counts
    requires { F.IsAlwaysCallable count }
    ensures { (v : Registration → ℕ) → ((g : Registration) (n : ℕ) → F.post count g n → n ≡ v g)
        → take (length (view space.now).registrations) result ≡ map v (view space.now).registrations }
{
    let mut counts = [0; MAX_REGISTRATIONS];
    for (i, g) in rows::<Registration>(space).enumerate() {
        counts[i] = count(g);
    }
    counts
}

// An entry with these fields is written outside transactions: it alone is made public.
pub fn count_written(space: &Words, fields: Mark) -> Counts
    ensures { take (length (view space.now).registrations) result
        ≡ map (match_count fields) (view space.now).registrations }
{
    count_each(space, |g| u32::from(fields_match(g.mask, g.fields, fields)))
}

// The transaction commits: what it has written and not taken again is made public.
pub fn count_committed(space: &Words, id: TxnId) -> Counts
    ensures { take (length (view space.now).registrations) result
        ≡ map (own_matching id.0 (view space.now).entries) (view space.now).registrations }
{
    count_each(space, |g| count_own(space, g, id))
}

// Whether the transaction has written the entry, and not taken it again.
pub(crate) fn is_own(e: Entry, t: TxnId) -> bool
    ensures { result ≡ is_own t.0 e }
{
    e.private_to == t && e.taken_by != t
}

// Whether the registration hears of the entry once the transaction commits.
pub(crate) fn is_own_match(g: Registration, e: Entry, t: TxnId) -> bool
    ensures { result ≡ (is_own t.0 e && matches g.mask g.fields e.fields) }
{
    is_own(e, t) && fields_match(g.mask, g.fields, e.fields)
}

// Of how many entries it hears then.
pub(crate) fn count_own(space: &Words, g: Registration, t: TxnId) -> u32
    ensures { result ≡ own_matching t.0 (view space.now).entries g }
{
    rows::<Entry>(space)
        .filter(|e| is_own_match(g, *e, t))
        .count() as u32
}

// A registration that has heard of so many more, up to a limit.
pub(crate) fn hear_once(g: Registration, count: u32, limit: u32) -> Registration
    ensures { result ≡ heard_once limit count g }
{
    Registration {
        total: g.total.saturating_add(count).min(limit),
        ..g
    }
}

// Each has heard of as many more as its count says. (No total passes the numbers of entries on a sound space.)
// Kept: by index: rows are written as they are read, and `rows` lends the space shared.
pub fn hear(space: &mut Words, counts: &Counts)
    ensures { view space.new ≡ with_registrations
        (heard_by (view space.old).next_entry counts.now
        (view space.old).registrations) (view space.old) }
{
    let limit = next_number::<Entry>(space);
    for i in 0..row_count::<Registration>(space) {
        let g = row_at::<Registration>(space, i);
        set_row(space, i, hear_once(g, counts[i], limit));
    }
}
