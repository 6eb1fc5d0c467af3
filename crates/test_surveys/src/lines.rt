// The numbers in a line of a text.
ghost use Rattle.std.specs.Prelude.{◌≤◌, length};

// How many numbers a line has after its first word, and these at the front of `out`; 0 where they cannot be read or find no room.
pub(crate) fn numbers_of(line: &str, out: &mut [i64]) -> usize
    ensures { result ≤ length out.old }
{
    let most = out.len();
    match text::read_rest(line.as_bytes(), 0, most, out) {
        Some(n) if n <= most => n,
        _ => 0,
    }
}
