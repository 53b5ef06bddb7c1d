// The words of a space: its numbers, and the rows of its tables read, put, moved, appended and removed.
ghost use Rattle.std.specs.Prelude.{◌≡◌, ◌<◌, ◌≤◌, ◌+◌, ◌++◌, [], ◌∷◌, length, set, Bool};
ghost use Rattle.std.proofs.lemmas.List.Edits.{sets};
ghost use Rattle.rules.specs.Lists.{filterb};
ghost use Rattle.rules.specs.Numbers.{max_entries, max_waits};
ghost use Rattle.rules.specs.Template.{bare};
ghost use Rattle.rules.specs.State.{empty, with_waits, with_clock};
ghost use Rattle.rules.specs.Words.{view, space_words};
ghost use Rattle.tables.specs.Rows.{empty_words, entry_row, field_at, move_words, without, FitsWord};
ghost use Rattle.tables.specs.Table.{at, cell, count};

use crate::row::{Numbered, Row};
use rules::{Entry, LookUp, Registration, Txn};

// How many words a space has.
pub const WORDS: usize = Registration::AT + Registration::WIDTH * Registration::MOST;

pub type Words = [u32; WORDS];

const CLOCK_AT: usize = 0;

// An empty space: clock 0, nothing stored, live or waiting, and 1 as each next number.
pub fn set_empty(space: &mut Words)
    ensures { (view space.new ≡ empty) × (space.new ≡ empty_words) }
{
    *space = [0; WORDS];
    space[Entry::NEXT_AT] = 1;
    space[Txn::NEXT_AT] = 1;
    space[Registration::NEXT_AT] = 1;
}

#[tactic(auto, unfolding(rules::specs::Words::view))]
pub fn clock(space: &Words) -> u32
    ensures { result ≡ (view space.now).clock }
{
    space[CLOCK_AT]
}

pub fn set_clock(space: &mut Words, t: u32)
    ensures { view space.new ≡ with_clock t (view space.old) }
{
    space[CLOCK_AT] = t;
}

// The number that the next row gets.
pub fn next_number<T: Numbered>(space: &Words) -> u32
    ensures { result ≡ T.next (view space.now) }
{
    space[T::NEXT_AT]
}

pub fn set_next_number<T: Numbered>(space: &mut Words, n: u32)
    ensures { view space.new ≡ T.with_next n (view space.old) }
{
    space[T::NEXT_AT] = n;
}

// How many rows there are.
#[inline(always)]
pub fn row_count<T: Row>(space: &Words) -> usize
    ensures { (result ≡ count T.table space.now) × (length space.now ≡ space_words) }
{
    (space[T::COUNT_AT] as usize).min(T::MOST)
}

pub fn set_row_count<T: Row>(space: &mut Words, n: usize)
    requires { n ≤ T.MOST }
    ensures { space.new ≡ set space.old T.table.count_at n }
{
    space[T::COUNT_AT] = n as u32;
}

// The row at i, counted from 0.
#[inline(always)]
pub fn row_at<T: Row>(space: &Words, i: usize) -> T
    requires { i < T.MOST }
    ensures { result ≡ cell T.table space.now i }
{
    let at = T::AT + T::WIDTH * i;
    T::read(&space[at..at + T::WIDTH])
}

// The field of the entry in row i at a column, counted from 0: the other words of the row are not read.
#[inline(always)]
pub fn field_at(space: &Words, i: usize, column: usize) -> u32
    requires { (i < max_entries) × (column < 4) }
    ensures { result ≡ field_at column (bare (entry_row space.now i).fields) }
{
    space[Entry::AT + 1 + Entry::WIDTH * i + column]
}

// The row at i becomes x.
#[inline(always)]
pub fn put_row<T: Row>(space: &mut Words, i: usize, x: T)
    requires { i < T.MOST }
    ensures words { space.new ≡ sets space.old (at T.table i) (T.words_of x) }
    ensures width { length (T.words_of x) ≡ T.WIDTH }
    ensures back { T.Fits x → T.table.read (T.words_of x) ≡ x }
{
    let at = T::AT + T::WIDTH * i;
    x.write(&mut space[at..at + T::WIDTH]);
}

// The row at i becomes x.
pub fn set_row<T: Row>(space: &mut Words, i: usize, x: T)
    requires { (i < count T.table space.old) × T.Fits x }
    ensures { (view space.new ≡ T.with_rows (set (T.rows (view space.old)) i x) (view space.old))
        × (length space.new ≡ space_words) }
{
    put_row(space, i, x);
}

// The row x stands behind the others. There is room in every sound space; on other words, where the table is full, it
// begins anew.
pub fn add_row<T: Row>(space: &mut Words, x: T)
    requires { T.Fits x }
    ensures { length (T.rows (view space.old)) < T.MOST → view space.new
        ≡ T.with_rows (T.rows (view space.old) ++ (x ∷ [])) (view space.old) }
{
    let n = row_count::<T>(space) % T::MOST;
    put_row(space, n, x);
    set_row_count::<T>(space, n + 1);
}

// The look-up stands behind the others. There is room in every sound space; on other words, where 16 wait already, the
// table begins anew.
pub fn add_wait(space: &mut Words, w: LookUp)
    requires { FitsWord w.deadline }
    ensures { length (view space.old).waits < max_waits → view space.new
        ≡ with_waits ((view space.old).waits ++ (w ∷ [])) (view space.old) }
{
    add_row(space, w);
}

// The row at `from` also stands at `to`. A row that stays is not written.
#[inline(always)]
pub fn move_row<T: Row>(space: &mut Words, from: usize, to: usize)
    requires { (from < T.MOST) × (to ≤ from) }
    ensures { space.new ≡ move_words space.old (at T.table from) (at T.table to) T.table.width }
{
    if from != to {
        let from = T::AT + T::WIDTH * from;
        space.copy_within(from..from + T::WIDTH, T::AT + T::WIDTH * to);
    }
}

// The row at i goes; those behind it move up by one.
pub fn remove_row<T: Row>(space: &mut Words, i: usize)
    requires { i < count T.table space.old }
    ensures { (view space.new ≡ T.with_rows (without i (T.rows (view space.old))) (view space.old))
        × (length space.new ≡ space_words) }
{
    let n = row_count::<T>(space);
    let next = T::AT + T::WIDTH * (i + 1);
    space.copy_within(next..T::AT + T::WIDTH * n, T::AT + T::WIDTH * i);
    set_row_count::<T>(space, n - 1);
}

// The rows that stay, in their order; the others go. The test may look at all words but the table's own rows.
pub fn retain_rows<T: Row, F: Fn(&Words, T) -> bool>(space: &mut Words, stays: F)
    requires { F.IsAlwaysCallable stays }
    ensures { (q : T → Bool)
        → ((p : _) (xs : _) (x : T) (r : Bool) → view p.now ≡ T.with_rows xs (view space.old)
        → F.post stays p x r → r ≡ q x)
        → view space.new ≡ T.with_rows (filterb q (T.rows (view space.old))) (view space.old) }
{
    let count = row_count::<T>(space);
    let mut kept = 0;
    for i in 0..count {
        let x = row_at::<T>(space, i);
        if !stays(space, x) {
            continue;
        }
        move_row::<T>(space, i, kept);
        kept += 1;
    }
    set_row_count::<T>(space, kept);
}
