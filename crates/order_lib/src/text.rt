// The line that is printed.
ghost use Rattle.std.specs.Prelude.{true, ◌*◌, ◌≤◌, ◌<◌, length, slice_index, EachIndex};
ghost use Rattle.codec.specs.Area.{InFront};
ghost use Rattle.order_lib.specs.Shows.{line_of, Shows};

use crate::words::read_words;
use order::{MAX_TXNS, find_order};

// A text, in front. Returns its length.
// Kept: beside `codec`'s `put`: that is stated at a place (`over`), this in front, with the text's length.
fn put_text(text: &[u8], out: &mut [u8]) -> usize
    requires { length text.now ≤ length out.old }
    ensures { InFront true text.now out.old out.new result }
{
    let end = text.len();
    out[..end].copy_from_slice(text);
    end
}

// The line of positions, in front. Returns its length.
fn put_line(positions: &[u8], out: &mut [u8]) -> usize
    requires { (length positions.now ≤ 6) × (12 ≤ length out.old)
        × EachIndex positions.now (λ j. slice_index positions.now j < 10) }
    ensures { InFront true (line_of positions.now) out.old out.new result }
{
    if positions.is_empty() {
        return put_text(b"\n", out);
    }
    // Kept: by hand, since std does not say which bytes `write!` puts into a slice, and there is no heap.
    for (i, position) in positions.iter().enumerate() {
        out[2 * i] = b'0' + *position;
        out[2 * i + 1] = if i + 1 < positions.len() { b' ' } else { b'\n' };
    }
    2 * positions.len()
}

// Finds the order of an export, and prints it in front of `out`. Returns the length of the text.
pub(crate) fn show_order(bytes: &[u8], words: &mut [u32], out: &mut [u8]) -> usize
    requires { (length bytes.now ≤ 4 * length words.old) × (12 ≤ length out.old) }
    ensures { Shows bytes.now out.old out.new result }
{
    if bytes.len() % 4 != 0 {
        return put_text(b"refused 22\n", out);
    }
    let words = read_words(bytes, words);
    let mut order = [0u8; MAX_TXNS];
    // Kept: numbers, as `find_order` hands them on to C.
    match find_order(words, &mut order) {
        0 => put_text(b"none\n", out),
        1 => put_line(&order[..words[0] as usize], out),
        _ => put_text(b"refused 22\n", out),
    }
}
