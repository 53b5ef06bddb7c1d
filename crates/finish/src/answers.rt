// The answers area: records put one after another.
ghost use Rattle.std.specs.Prelude.{◌≡◌, ◌+◌, ◌*◌, ◌≤◌, length, map, [], ◌∷◌, Bool, cond, Some, None};
ghost use Rattle.rules.specs.Lists.{filterb};
ghost use Rattle.rules.specs.Numbers.{record_size};
ghost use Rattle.rules.specs.Words.{view};
ghost use Rattle.rules.specs.declared.Record.{Record};
ghost use Rattle.finish.specs.Does.{Adds};

use codec::put_record;
use rules::Record;
use rules::numbers::RECORD_SIZE;
use words::iter::rows;
use words::row::Row;
use words::rows::Words;

// One record more, in the part of the area that starts where the last record ended.
// `count` records stand there before; the number afterwards is returned.
// Kept: area and count are two: document 01's form lends the writer a part from the running offset.
pub fn add_record(answers: &mut [u8], count: usize, r: Record) -> usize
    requires { record_size * (count + 1) ≤ length answers.old }
    ensures { Adds (r ∷ []) answers.old answers.new count result }
{
    let at = RECORD_SIZE * count;
    put_record(&mut answers[at..], r);
    count + 1
}

// A record for each row of a table that gets one, in the rows' order.
pub(crate) fn add_each<T: Row, F: Fn(T) -> Option<Record>>(
    space: &Words,
    answers: &mut [u8],
    count: usize,
    record_for: F,
) -> usize
    requires can { F.IsAlwaysCallable record_for }
    requires room { record_size * (count + length (T.rows (view space.now))) ≤ length answers.old }
    ensures { (q : T → Bool) (a : T → Record)
        → ((x : T) (r : _) → F.post record_for x r → r ≡ cond (q x) (Some (a x)) None)
        → Adds (map a (filterb q (T.rows (view space.now)))) answers.old answers.new count result }
{
    let mut done = count;
    for x in rows::<T>(space) {
        let Some(r) = record_for(x) else {
            continue;
        };
        done = add_record(answers, done, r);
    }
    done
}
