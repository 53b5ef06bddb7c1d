// The words of an export's bytes.
ghost use Rattle.std.specs.Prelude.{◌≡◌, ◌*◌, ◌≤◌, length};
ghost use Rattle.order_lib.specs.Shows.{words_in};

use codec::whole_number;

// As many whole words as the bytes have, in front of `words`.
pub(crate) fn read_words<'a>(bytes: &[u8], words: &'a mut [u32]) -> &'a [u32]
    requires { length bytes.now ≤ 4 * length words.old }
    ensures { result.now ≡ words_in bytes.now }
{
    let count = bytes.len() / 4;
    // Kept: by place, since `zip` of `iter_mut` and `chunks_exact` was tried, and the proof did not close.
    for i in 0..count {
        words[i] = whole_number(bytes, 4 * i);
    }
    &words[..count]
}
