// What the program prints, written as text into a lent buffer.
#![tactic(auto)]

ghost use Rattle.std.specs.Prelude.{◌&&◌, ◌+◌, ◌*◌, ◌≤◌, length};
ghost use Rattle.rules.specs.Print.{decimal, line, done_line};
ghost use Rattle.printer.specs.Text.{Puts, Prints, has_line, has_record, record_text};

use codec::record_at;
use rules::numbers::RECORD_SIZE;

// A buffer of this size has room for any line.
pub const LINE_SIZE: usize = 100;

// What the last line begins with.
const DONE: &[u8] = b"done ";

// The decimal digits of a number, from `at` on. Returns where they end.
// Kept: by hand, into a lent buffer: no heap, and std does not say which bytes `write!` puts into a slice.
fn put_decimal(out: &mut [u8], at: usize, n: u32) -> usize
    requires { at + length (decimal n) ≤ length out.old }
    ensures { Puts (decimal n) out.old out.new at result }
{
    if n < 10 {
        out[at] = b'0' + n as u8;
        return at + 1;
    }
    let next = put_decimal(out, at, n / 10);
    out[next] = b'0' + (n % 10) as u8;
    next + 1
}

// Numbers with a space between each two, and a line feed, from `at` on. Returns where the line ends.
// Kept: into a lent buffer, as `put_decimal`: there is no heap for a String.
fn put_line(out: &mut [u8], at: usize, numbers: &[u32]) -> usize
    requires { (1 ≤ length numbers.now) × (at + 11 * length numbers.now ≤ length out.old) }
    ensures { Puts (line numbers.now) out.old out.new at result }
{
    let mut next = at;
    for (i, number) in numbers.iter().enumerate() {
        next = put_decimal(out, next, *number);
        out[next] = if i + 1 < numbers.len() { b' ' } else { b'\n' };
        next += 1;
    }
    next
}

// The line of the record whose 28 bytes stand in front. Returns its length; 0 where a byte or room is lacking.
// Kept: 0 and no Option: it is public (DECISIONS 40), and such a contract may not change.
pub fn record_line(bytes: &[u8], out: &mut [u8]) -> usize
    ensures { Prints (has_record bytes.now && has_line out.old)
        (record_text bytes.now) out.old out.new result }
{
    if bytes.len() < RECORD_SIZE {
        return 0;
    }
    if out.len() < LINE_SIZE {
        return 0;
    }
    let r = record_at(bytes, 0);
    let numbers = [
        u32::from(r.kind),
        u32::from(r.party),
        u32::from(r.refusal),
        r.txn.0,
        r.entry.0,
        r.fields.kind,
        r.fields.side,
        r.fields.image,
        r.fields.place,
    ];
    put_line(out, 0, &numbers)
}

// The last line: `done`, frames, records, number. Returns its length; 0 where there is no room.
// Kept: 0 and no Option: it is public (DECISIONS 40), and such a contract may not change.
pub fn done_line(frames: u32, records: u32, number: u32, out: &mut [u8]) -> usize
    ensures { Prints (has_line out.old)
        (done_line frames records number) out.old out.new result }
{
    if out.len() < LINE_SIZE {
        return 0;
    }
    out[..DONE.len()].copy_from_slice(DONE);
    put_line(out, DONE.len(), &[frames, records, number])
}
