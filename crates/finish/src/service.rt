// Service: the waiting look-ups are gone through once.
ghost use Rattle.std.specs.Prelude.{◌+◌, ◌*◌, ◌≤◌, length};
ghost use Rattle.rules.specs.Numbers.{max_entries, max_waits, record_size};
ghost use Rattle.rules.specs.Words.{view};
ghost use Rattle.finish.specs.Does.{Does};
ghost use Rattle.finish.specs.From.{service_from};

use crate::answers::add_record;
use available::find::{asked_at, next_row};
use available::holds::is_available;
use codec::records::found_record;
use holds::hand::hand_out;
use rules::{Entry, LookUp};
use words::rows::{Words, move_row, row_at, row_count, set_row_count};

// The waiting look-ups are gone through once in order of arrival, and each with an available entry is answered found,
// with the oldest available at its turn, of the entries from row `from` on. `count` records stand in the answers area
// before; the number afterwards is returned.
pub(crate) fn serve_waits(space: &mut Words, answers: &mut [u8], count: usize, from: usize) -> usize
    requires { (record_size * (count + max_waits) ≤ length answers.old) × (from ≤ max_entries) }
    ensures { Does (service_from from (view space.old)) space.new
        answers.old answers.new count result }
{
    let waits = row_count::<LookUp>(space);
    let mut done = count;
    let mut kept = 0;
    // Kept: compacted by hand: `hand_out` needs the space mutably inside, and `retain_rows` lends it shared.
    'waiting: for i in 0..waits {
        let asked = asked_at(space, i);
        let entries = row_count::<Entry>(space);
        // Kept: document 01's form: nested loops, the inner left by label; `next_row` leaps.
        let mut j = next_row(space, asked, from, entries);
        while j < entries {
            let w = row_at::<LookUp>(space, i);
            let e = row_at::<Entry>(space, j);
            if is_available(space, e, w) {
                hand_out(space, j, e, w);
                done = add_record(answers, done, found_record(w, e));
                continue 'waiting;
            }
            j = next_row(space, asked, j + 1, entries);
        }
        move_row::<LookUp>(space, i, kept);
        kept += 1;
    }
    set_row_count::<LookUp>(space, kept);
    done
}
