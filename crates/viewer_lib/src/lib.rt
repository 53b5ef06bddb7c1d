// The program's body: a tray is read from standard input, run, and its answers are printed.
#![tactic(auto)]

mod text;

use input::answer_input;
use printer::LINE_SIZE;
use rules::numbers::MAX_TRAY;
use text::show_tray;

// The bytes of the answers area.
const AREA: usize = 65536;

// A tray that fills the buffer is over 65,536 bytes, and is refused with 15 whatever follows. What cannot be read or
// written is said on standard error: the program's exit status is 0 all the same. Of input that cannot be read nothing
// is printed. No contract can say what was read from or written to a descriptor: what is proved is the text between,
// `show_tray`'s (DECISIONS 37).
pub fn show(rt: &(impl Input + Print + Eprint)) {
    let mut bytes = [0; MAX_TRAY + 1];
    let mut answers = [0; AREA];
    let mut text = [0; 4 * AREA + LINE_SIZE];
    answer_input(
        rt,
        "viewer",
        &mut bytes,
        &mut text,
        |tray, out| show_tray(tray, &mut answers, out),
    );
}
