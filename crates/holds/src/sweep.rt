// One pass over the entries: which are kept, and what becomes of those.
ghost use Rattle.std.specs.Prelude.{◌≡◌, Bool, Option, true};
ghost use Rattle.rules.specs.declared.Entry.{Entry};
ghost use Rattle.rules.specs.Tick.{drop_ended};
ghost use Rattle.rules.specs.Words.{view};
ghost use Rattle.holds.specs.Sweep.{Spares, passed, sweep_model, SameBefore};

use crate::search::first_row;
use rules::Entry;
use words::rows::{Words, clock, put_row, row_at, row_count, set_row_count};

// One pass over the entries: what it touches goes or stays as `pass` says, and the others stay as they are. Those that
// stay stand in front. The row is returned from which on it changes any.
// Kept: the one loop for rows that go, stay or change; `retain_rows` cannot change a row.
pub(crate) fn pass_over<T: Fn(Entry) -> bool, P: Fn(Entry) -> Option<Entry>>(
    space: &mut Words,
    touches: T,
    pass: P,
) -> usize
    requires { T.IsAlwaysCallable touches × P.IsAlwaysCallable pass }
    ensures { (touch keep : Entry → Bool) (change : Entry → Entry) → Spares touch keep change
        → ((e : Entry) (r : Bool) → T.post touches e r → r ≡ touch e)
        → ((e : Entry) (r : Option Entry) → touch e ≡ true → P.post pass e r → r ≡ passed keep change e)
        → (view space.new ≡ sweep_model keep change (view space.old))
        × SameBefore result (view space.old) (view space.new) }
{
    let count = row_count::<Entry>(space);
    let first = first_row(space, &touches).unwrap_or(count);
    let mut kept = first;
    for i in first..count {
        let e = row_at::<Entry>(space, i);
        if !touches(e) {
            // What was read is put: where words are moved, the compiler moves them one by one.
            if i != kept {
                put_row(space, kept, e);
            }
        } else if let Some(x) = pass(e) {
            put_row(space, kept, x);
        } else {
            continue;
        }
        kept += 1;
    }
    set_row_count::<Entry>(space, kept);
    first
}

// Stored entries that end now are removed.
// Kept: by `pass_over`, which begins at the first row that ends (DECISIONS 32, docs/PERFORMANCE.md).
pub fn drop_ended(space: &mut Words)
    ensures { view space.new ≡ drop_ended (view space.old) }
{
    let now = clock(space);
    pass_over(space, |e| e.end.is_reached(now), |_| None);
}
