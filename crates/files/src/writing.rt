// One entry written: its thirteen words, and a trailer that is worked out.
ghost use Rattle.std.specs.Prelude.{◌≡◌, ◌+◌, ◌%◌, ◌≤◌, length, take};
ghost use Rattle.words.specs.Runs.{put_words};
ghost use Rattle.files.specs.Entries.{entry_words};

use super::entries::{previous_trailer, sum};

// The words of the entry that starts at byte `start`: the first thirteen of w, and its trailer.
fn with_trailer(w: [i64; 16], start: usize) -> [i64; 16]
    requires { start % 128 ≡ 0 }
    ensures { result ≡ entry_words start (take 13 w) }
{
    let mut v = w;
    v[13] = words::to_signed(start as u64);
    v[14] = previous_trailer(start);
    v[15] = sum(&v[0..15]);
    v
}

// Writes the first thirteen words of w as the entry that starts at byte `start`, with its trailer.
pub fn write_entry(file: &mut [u8], start: usize, w: [i64; 16])
    requires { (start + 128 ≤ length file.old) × (start % 128 ≡ 0) }
    ensures { file.new ≡ put_words file.old start (entry_words start (take 13 w)) }
{
    let v = with_trailer(w, start);
    words::write_words(file, start, &v);
}
