// Runs of words: a slice of numbers filled from bytes, and written to them.
ghost use Rattle.std.specs.Prelude.{◌≡◌, ◌+◌, ◌*◌, ◌≤◌, length};
ghost use Rattle.words.specs.Runs.{words_at, put_words};

use super::bytes::{put_word, word_at};

// Fills out, whole, with the words of s from at on.
pub fn read_words(s: &[u8], at: usize, out: &mut [i64])
    requires { at + 8 * length out.old ≤ length s.now }
    ensures { out.new ≡ words_at s.now at (length out.old) }
{
    for (i, word) in out.iter_mut().enumerate() {
        *word = word_at(s, at + 8 * i);
    }
}

// Puts all of w into s as words from at on.
pub fn write_words(s: &mut [u8], at: usize, w: &[i64])
    requires { at + 8 * length w.now ≤ length s.old }
    ensures { s.new ≡ put_words s.old at w.now }
{
    for (i, word) in w.iter().enumerate() {
        put_word(s, at + 8 * i, *word);
    }
}
