// The lines of a sheet: a line is made of its words, and stored from an index on.
ghost use Rattle.std.specs.Prelude.{◌≡◌, ◌+◌, ◌<◌, ◌≤◌, pos, length};
ghost use Rattle.lists.specs.Pasted.{pasted};
ghost use Rattle.network.specs.Units.{place_count};
ghost use Rattle.network.specs.Records.{observations};
ghost use Rattle.sheet.specs.Sheet.{line_length};
ghost use Rattle.sheet.specs.Lines.{seven_words, three_words, line_of};

use network::Record;

// A number from 1 of what is counted from 0.
fn numbered(k: usize) -> i64
    requires { k < place_count }
    ensures { result ≡ pos (k + 1) }
{
    (k + 1) as i64
}

// A line of seven words: the number, and two values in each of E, N, U. Of a station they are coordinates and variances, of a baseline residuals and verdicts.
pub fn seven_words(k: usize, v: [i64; 3], w: [i64; 3]) -> [i64; 7]
    requires { k < place_count }
    ensures { result ≡ seven_words k v w }
{
    let number = numbered(k);
    [number, v[0], v[1], v[2], w[0], w[1], w[2]]
}

// A line of three words: the number, and two values in U.
fn three_words(k: usize, v: [i64; 3], w: [i64; 3]) -> [i64; 3]
    requires { k < place_count }
    ensures { result ≡ three_words k v w }
{
    let number = numbered(k);
    [number, v[2], w[2]]
}

// Stores a line from index `at` on; the next index.
pub fn put_line(sheet: &mut [i64], at: usize, line: &[i64]) -> usize
    requires { at + length line.now ≤ length sheet.old }
    ensures { (result ≡ at + length line.now) × (sheet.new ≡ pasted sheet.old at line.now) }
{
    lists::paste(sheet, at, line);
    at + line.len()
}

// The line of the record at place p with its residuals v and verdicts w, stored from index `at` on; the next index. It follows from how many components the record observes.
pub fn put_record(
    sheet: &mut [i64],
    at: usize,
    p: usize,
    r: Record,
    v: [i64; 3],
    w: [i64; 3],
) -> usize
    requires { (at + line_length r ≤ length sheet.old) × (p < place_count) }
    ensures { (result ≡ at + line_length r) × (sheet.new ≡ pasted sheet.old at (line_of (observations r) p v w)) }
{
    match network::observations_of(r) {
        0 => at,
        1 => put_line(sheet, at, &three_words(p, v, w)),
        _ => put_line(sheet, at, &seven_words(p, v, w)),
    }
}
