// The search of the entries for a look-up, and whether it waits in vain.
ghost use Rattle.std.specs.Prelude.{◌≡◌, ◌+◌, ◌≤◌, ◌<◌, Bool, MatchOption};
ghost use Rattle.rules.specs.Closing.{is_over};
ghost use Rattle.rules.specs.Holds.{oldest, some_conflicts};
ghost use Rattle.rules.specs.Numbers.{max_entries, max_waits};
ghost use Rattle.rules.specs.Words.{view};
ghost use Rattle.rules.specs.declared.Entry.{Entry};
ghost use Rattle.tables.specs.Rows.{wait_row};
ghost use Rattle.available.specs.Find.{match_of, Finds, InRow, Asks, has_field, Only, Passes, PassesAsked};

pub use crate::asked::Asked;
use crate::holds::{is_available, is_conflicting};
use rules::bits::has_bit;
use rules::{Entry, Fields, LookUp};
use words::row::Row;
use words::rows::{Words, clock, field_at, row_at, row_count};

// The first field that a template asks for, if it asks for any.
pub fn asked_of(mask: u8, fields: Fields) -> Option<Asked>
    ensures { Asks result mask fields }
{
    // Kept: four tests: the loop over an array took 8 instructions a look-up more (docs/PERFORMANCE.md).
    if has_bit(mask, 0) {
        return Some(Asked {
            column: 0,
            want: fields.kind,
        });
    }
    if has_bit(mask, 1) {
        return Some(Asked {
            column: 1,
            want: fields.side,
        });
    }
    if has_bit(mask, 2) {
        return Some(Asked {
            column: 2,
            want: fields.image,
        });
    }
    if has_bit(mask, 3) {
        return Some(Asked {
            column: 3,
            want: fields.place,
        });
    }
    None
}

// What the look-up that waits in row i asks first.
pub fn asked_at(space: &Words, i: usize) -> Option<Asked>
    requires { i < max_waits }
    ensures { Asks result (wait_row space.now i).mask (wait_row space.now i).fields }
{
    let w = row_at::<LookUp>(space, i);
    asked_of(w.mask, w.fields)
}

// How many rows are looked at in one go: a loop of so many turns is unrolled.
const BLOCK: usize = 8;

// The first of the eight rows from `from` on that has what is asked.
pub(crate) fn row_in_block(space: &Words, a: Asked, from: usize) -> Option<usize>
    requires { (from + 8 ≤ max_entries) }
    ensures { MatchOption result (Passes (has_field a.column a.want) space.now from (from + 8))
        (λ r. (r < from + 8) × Passes (has_field a.column a.want) space.now from r) }
{
    for k in 0..BLOCK {
        if field_at(space, from + k, a.column) == a.want {
            return Some(from + k);
        }
    }
    None
}

// The first row from `from` on that has what is asked, or where fewer than eight are left.
// Kept: no Option, since either row is where the search goes on; two bounds, which a loop that goes on has as numbers.
pub(crate) fn skip_blocks(space: &Words, a: Asked, from: usize, n: usize) -> usize
    requires { (from ≤ max_entries) × (n ≤ max_entries) }
    ensures { Passes (has_field a.column a.want) space.now from result }
{
    // Kept: the row where the blocks end is the answer, which a `for` over them would have to work out again.
    let mut i = from;
    while i + BLOCK <= n {
        if let Some(r) = row_in_block(space, a, i) {
            return r;
        }
        i += BLOCK;
    }
    i
}

// The first of the rows from `from` on that has what is asked, or else one behind them.
// Kept: no Option, as in `next_row`, which hands it on.
// Inlined: where few rows are left, as in service, a call costs as much as the rows.
#[inline(always)]
pub(crate) fn row_with(space: &Words, a: Asked, from: usize, n: usize) -> usize
    requires { (from ≤ max_entries) × (n ≤ max_entries) }
    ensures { Passes (has_field a.column a.want) space.now from result }
{
    let first = skip_blocks(space, a, from, n);
    for i in first..n {
        if field_at(space, i, a.column) == a.want {
            return i;
        }
    }
    first.max(n)
}

// A row from `from` on, of n rows, up to which none matches a template that asks so: the next to look at.
// Kept: one past the end for none: a search's loop tests its row anyway, and has two calls with an Option too.
#[inline(always)]
pub fn next_row(space: &Words, asked: Option<Asked>, from: usize, n: usize) -> usize
    requires { (from ≤ max_entries) × (n ≤ max_entries) }
    ensures { (from ≤ result) × ((mask : _) (want : _) → Asks asked mask want
        → PassesAsked mask want space.now from result) }
{
    match asked {
        Some(a) => row_with(space, a, from, n),
        None => from,
    }
}

// The first entry that passes a test, and its row. None passes it that does not match the look-up's template.
pub(crate) fn first_passing<F: Fn(Entry) -> bool>(
    space: &Words,
    w: LookUp,
    passes: F,
) -> Option<(Entry, usize)>
    requires { F.IsAlwaysCallable passes }
    ensures { (q : Entry → Bool) → Only w q → ((e : Entry) (r : Bool) → F.post passes e r → r ≡ q e)
        → Finds q space.now result }
{
    let n = row_count::<Entry>(space);
    let asked = asked_of(w.mask, w.fields);
    // Kept: an iterator that leaps would wrap the same `next_row`, with laws of its own: no plainer.
    let mut i = next_row(space, asked, 0, n);
    while i < n {
        let e = row_at::<Entry>(space, i);
        if passes(e) {
            return Some((e, i));
        }
        i = next_row(space, asked, i + 1, n);
    }
    None
}

// The oldest entry that is available to the look-up, and its row.
pub fn find_available(space: &Words, w: LookUp) -> Option<(Entry, usize)>
    ensures { (match_of result ≡ oldest (view space.now).txns w (view space.now).entries)
        × InRow space.now result }
{
    first_passing(space, w, |e| is_available(space, e, w))
}

// Whether some entry conflicts with the look-up.
pub fn any_conflict(space: &Words, w: LookUp) -> bool
    ensures { result ≡ some_conflicts (view space.now).txns w (view space.now).entries }
{
    first_passing(space, w, |e| is_conflicting(space, e, w)).is_some()
}

// Whether a look-up that waits is over: its deadline is reached, or it is of an IfExists kind and no entry conflicts.
#[tactic(auto, unfolding(rules::specs::Closing::is_over))]
pub fn is_over(space: &Words, w: LookUp) -> bool
    ensures { result ≡ is_over (view space.now) w }
{
    w.deadline.is_reached(clock(space)) || (w.if_exists && !any_conflict(space, w))
}
