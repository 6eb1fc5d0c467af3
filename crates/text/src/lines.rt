// Lines out of chunks: the bytes of a line are gathered in a lent buffer; those beyond its room are dropped, with a mark.
ghost use Rattle.std.specs.Prelude.{◌≡◌, ◌||◌, ltb, ◌≤◌, length};
ghost use Rattle.text.specs.Lines.{fed_at, Feeds};

use super::Fed;
use super::fields::find;
use super::writing::write_text;

fn ended(chunk: &[u8], end: usize, len: usize, over: bool) -> Fed
    ensures { result ≡ fed_at (length chunk.now) end len over }
{
    let whole = end < chunk.len();
    Fed {
        whole,
        len,
        over,
        next: if whole { end + 1 } else { end },
    }
}

// Goes on with the line at the front of `line`, up to len, with the bytes of chunk from `at` up to the next LF.
pub fn feed(line: &mut [u8], len: usize, over: bool, chunk: &[u8], at: usize) -> Fed
    requires { len ≤ length line.old }
    ensures { Feeds line.old len over chunk.now at result line.new }
{
    let end = find(chunk, at, b'\n');
    if chunk.len() < end {
        return ended(chunk, end, len, over);
    }
    let room = line.len() - len;
    if end - at <= room {
        let p = write_text(line, len, &chunk[at..end]);
        return ended(chunk, end, p, over);
    }
    let cut = at + room;
    let p = write_text(line, len, &chunk[at..cut]);
    ended(chunk, end, p, true)
}

// Whether what the end of the input leaves of a line is one: it has a byte.
pub fn is_line(len: usize, over: bool) -> bool
    ensures { result ≡ (over || ltb 0 len) }
{
    over || 0 < len
}
