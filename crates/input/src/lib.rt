// A reader's bytes, read whole.
#![tactic(auto)]

ghost use Rattle.std.specs.Prelude.{IfOk, length};
ghost use Rattle.input.specs.Answers.{Writes, KeptOrAnswered};
ghost use Rattle.input.specs.Counts.{IsPrefixLen};

use std::io::{self, Read};

// How many bytes stand at the buffer's start, once they are read to their end or to the buffer's.
// A read that a signal interrupts fails too.
// Kept: its own loop, since `read_to_end` allocates, and there is no heap.
pub fn read_input<R: Read>(reader: &mut R, buf: &mut [u8]) -> io::Result<usize>
    ensures { IfOk result (λ len. IsPrefixLen len buf.new) }
{
    let mut len = 0;
    while len < buf.len() {
        match reader.read(&mut buf[len..])? {
            0 => break,
            more => len += more,
        }
    }
    Ok(len)
}

// What `answer` makes of standard input is printed: of the bytes that are read, into a text buffer, and it returns the
// text's length. What cannot be read or written is said on standard error. Of input that cannot be read nothing is
// printed.
pub fn answer_input<A: FnOnce(&[u8], &mut [u8]) -> usize>(
    rt: &(impl Input + Print + Eprint),
    program: &str,
    bytes: &mut [u8],
    text: &mut [u8],
    answer: A,
)
    requires { Writes A.FnOnce answer (length bytes.old) (length text.old) }
    ensures { KeptOrAnswered A.FnOnce answer bytes.new text.old text.new }
{
    let Ok(len) = read_input(&mut rt.reader(), bytes) else {
        let _ = eprintln!(rt; "{program}: cannot read standard input");
        return;
    };
    let end = answer(&bytes[..len], text);
    if rt.write_all(&text[..end]).is_err() {
        let _ = eprintln!(rt; "{program}: cannot write all of standard output");
    }
}
