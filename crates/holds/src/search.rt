// The search of the entries row by row.
ghost use Rattle.std.specs.Prelude.{◌≡◌, Bool};
ghost use Rattle.rules.specs.declared.Entry.{Entry};
ghost use Rattle.holds.specs.Search.{IsRow, Stops};

use rules::Entry;
use words::iter::rows;
use words::rows::Words;

// The first row whose entry passes a test.
pub(crate) fn first_row<F: Fn(Entry) -> bool>(space: &Words, passes: F) -> Option<usize>
    requires { F.IsAlwaysCallable passes }
    ensures row { IsRow space.now result }
    ensures first { (q : Entry → Bool) → ((e : Entry) (r : Bool) → F.post passes e r → r ≡ q e)
        → Stops q space.now result }
{
    rows::<Entry>(space).position(passes)
}
