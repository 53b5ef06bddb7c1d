// The rows of a table, one after another.
ghost use Rattle.std.specs.Prelude.{◌≡◌, ◌≤◌, ◌<◌};
ghost use Rattle.std.specs.Iterator.{YieldsFirst, item_count};
ghost use Rattle.rules.specs.Words.{view};
ghost use Rattle.tables.specs.Table.{left};

use crate::row::Row;
use crate::rows::{Words, row_at, row_count};
use std::marker::PhantomData;

// The rows from `at` on that are still to come.
#[derive(Drop)]
pub struct RowIter<'a, T: Row> {
    space: &'a Words,
    at: usize,
    end: usize,
    of: PhantomData<T>,
    ghost fits: { end ≤ T.MOST },
}

// The rows of a table.
pub fn rows<T: Row>(space: &Words) -> RowIter<'_, T>
    ensures { left T.table result.space.now result.at result.end ≡ T.rows (view space.now) }
{
    RowIter {
        space,
        at: 0,
        end: row_count::<T>(space),
        of: PhantomData,
    }
}

impl<'a, T: Row> Iterator for RowIter<'a, T> {
    type Item = T;

    ghost next_gives = { YieldsFirst (λ s. left T.table s.space.now s.at s.end) };

    ghost remaining = { item_count (λ s. left T.table s.space.now s.at s.end) };

    fn next(&mut self) -> Option<T> {
        if self.end <= self.at {
            return None;
        }
        let x = row_at::<T>(self.space, self.at);
        self.at += 1;
        Some(x)
    }
}
