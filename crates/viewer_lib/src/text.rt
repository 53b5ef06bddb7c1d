// What the program prints of a tray.
ghost use Rattle.std.specs.Prelude.{true, ◌+◌, ◌*◌, ◌≤◌, length};
ghost use Rattle.rules.specs.Numbers.{record_size};
ghost use Rattle.printer.specs.Text.{Prints, line_size};
ghost use Rattle.viewer_lib.specs.Shows.{record_texts, Shows};

use printer::{LINE_SIZE, done_line, record_line};
use rules::numbers::RECORD_SIZE;
use tray::run_tray;

// The lines of the first `count` records of an answers area, in front. Returns where they end.
fn put_records(answers: &[u8], count: usize, out: &mut [u8]) -> usize
    requires { (record_size * count ≤ length answers.now) × (line_size * count ≤ length out.old) }
    ensures { Prints true (record_texts count answers.now) out.old out.new result
        × (result ≤ line_size * count) }
{
    let mut at = 0;
    // Kept: by places: over `chunks_exact(..).take(n)` the body would call the same reader: no plainer.
    for i in 0..count {
        at += record_line(&answers[RECORD_SIZE * i..], &mut out[at..at + LINE_SIZE]);
    }
    at
}

// Runs a tray, and prints its answers in front of `out`, which has four bytes for each byte of the answers area and
// a line more. Returns the length of the text.
pub(crate) fn show_tray(tray: &[u8], answers: &mut [u8], out: &mut [u8]) -> usize
    requires { 4 * length answers.old + line_size ≤ length out.old }
    ensures { Shows tray.now answers.old out.old out.new result }
{
    // Kept: three numbers in one, as the space hands them on to C.
    let told = run_tray(tray, answers);
    let frames = (told % 65536) as u32;
    let records = (told / 65536 % 65536) as u32;
    let number = (told / 4294967296) as u32;
    let at = put_records(answers, records as usize, out);
    at + done_line(frames, records, number, &mut out[at..at + LINE_SIZE])
}
