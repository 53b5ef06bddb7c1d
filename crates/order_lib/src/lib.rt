// The program's body: a study export is read from standard input, and the order found is printed.
#![tactic(auto)]

mod text;
mod words;

use input::answer_input;
use text::show_order;

// The bytes of the largest export that is accepted, 103 words, and of one word more.
const MAX_BYTES: usize = 416;

const MAX_WORDS: usize = 104;

const LINE_SIZE: usize = 12;

// An export that fills the buffer is longer than any that is accepted, and is refused whatever follows. What cannot be
// read or written is said on standard error: the program's exit status is 0 all the same. No contract can say what was
// read from or written to a descriptor: what is proved is the text between, `show_order`'s (DECISIONS 37).
pub fn show(rt: &(impl Input + Print + Eprint)) {
    let mut bytes = [0; MAX_BYTES];
    let mut words = [0; MAX_WORDS];
    let mut line = [0; LINE_SIZE];
    answer_input(
        rt,
        "study_order",
        &mut bytes,
        &mut line,
        |export, out| show_order(export, &mut words, out),
    );
}
