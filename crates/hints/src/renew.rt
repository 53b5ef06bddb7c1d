// Hints made anew, by a look at every row.
ghost use Rattle.std.specs.Prelude.{◌≡◌, ◌<◌};
ghost use Rattle.rules.specs.Lists.{All};
ghost use Rattle.rules.specs.Words.{view, until_word};
ghost use Rattle.tables.specs.Table.{cell};
ghost use Rattle.rules.specs.declared.until.Until.{Until};
ghost use Rattle.hints.specs.Hints.{Flagged, NotBefore, Anew, Renewed};

use crate::known::Hints;
use rules::numbers::FOREVER;
use rules::{Entry, LookUp, Registration, Txn, Until};
use words::iter::rows;
use words::row::Row;
use words::rows::{Words, clock, row_at, row_count};

// A row that ends at some tick, or never.
pub(crate) trait Lasting: Row {
    ghost ends: { Self → Until };

    fn end(self) -> Until
        ensures { result ≡ ends self };
}

impl Lasting for Entry {
    ghost ends = { λ e. e.end };

    fn end(self) -> Until {
        self.end
    }
}

impl Lasting for Txn {
    ghost ends = { λ t. t.end };

    fn end(self) -> Until {
        self.end
    }
}

impl Lasting for LookUp {
    ghost ends = { λ w. w.deadline };

    fn end(self) -> Until {
        self.deadline
    }
}

impl Lasting for Registration {
    ghost ends = { λ g. g.end };

    fn end(self) -> Until {
        self.end
    }
}

// The end of the row at i, as a word: FOREVER is later than every tick.
fn end_at<T: Lasting>(space: &Words, i: usize) -> u32
    requires { i < T.MOST }
    ensures { result ≡ until_word (T.ends (cell T.table space.now i)) }
{
    u32::from(row_at::<T>(space, i).end())
}

// A tick before which no row of the table ends: the least of all.
// Kept: by place: where a fold is handed whole rows, each end is made an `Until` and a word again.
fn first_end<T: Lasting>(space: &Words) -> u32
    ensures { All (λ x. NotBefore result (T.ends x)) (T.rows (view space.now)) }
{
    let mut least = FOREVER;
    for i in 0..row_count::<T>(space) {
        least = least.min(end_at::<T>(space, i));
    }
    least
}

impl Hints {
    // A flag for everyone who waits.
    fn flag_waiting(&mut self, space: &Words)
        ensures { All (Flagged self.new) (view space.now).waits
            × (self.new.least ≡ self.old.least)
            × (self.new.acted ≡ self.old.acted) }
    {
        for w in rows::<LookUp>(space) {
            self.flag_party(w.party);
        }
    }

    // Ends and flags as they are now.
    fn renew(&mut self, space: &Words)
        ensures { Anew self.old (view space.now) self.new }
    {
        let stored = first_end::<Entry>(space).min(first_end::<Txn>(space));
        let asked = first_end::<Registration>(space).min(first_end::<LookUp>(space));
        *self = Hints {
            least: stored.min(asked),
            acted: self.acted,
            ..Hints::of_empty()
        };
        self.flag_waiting(space);
    }

    // They are made anew once the clock has reached their tick.
    pub fn renew_reached(&mut self, space: &Words)
        ensures { Renewed self.old (view space.now) self.new }
    {
        if self.least_end() <= clock(space) {
            self.renew(space);
        }
    }
}
