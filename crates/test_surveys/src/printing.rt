// The output: what is compared with, as the source has it; this program's numbers; the differences.
use super::lines::numbers_of;

pub(crate) fn text(words: &str) {
    io::write_all(1, words.as_bytes());
}

// Stays: each test program prints its signed numbers itself, since it stands alone, and a contract of a shared function could state nothing of what it prints.
fn number(v: i64) {
    text(" ");
    if v < 0 {
        text("-");
    }
    io::print_decimal(1, v.unsigned_abs());
}

// A line, the values beside its numbers, and by how much they are more, modulo 2^64.
fn beside(line: &str, values: &[i64], others: &[i64]) {
    text(line);
    text(" |");
    for v in values {
        number(*v);
    }
    text(" |");
    for (v, other) in values.iter().zip(others) {
        number(v.wrapping_sub(*other));
    }
    text("\n");
}

// A line, of at most 15 numbers, beside as many of the values from `at` on; the place after them.
fn line_beside(values: &[i64], at: usize, line: &str) -> usize {
    let mut others = [0i64; 15];
    let n = numbers_of(line, &mut others);
    if at > values.len() || n > values.len() - at {
        return at;
    }
    beside(line, &values[at..at + n], &others);
    at + n
}

// Each line of a text beside the values from `start` on.
pub(crate) fn lines_beside(values: &[i64], start: usize, lines: &str) {
    let mut at = start;
    for line in lines.lines() {
        at = line_beside(values, at, line);
    }
}

// Each line of a text beside the first three values, times 10 modulo 2^64, of a row of seven.
pub(crate) fn tenfold_rows_beside(values: &[i64], lines: &str) {
    let (rows, _) = values.as_chunks::<7>();
    for (line, [e, n, u, ..]) in lines.lines().zip(rows) {
        let mut others = [0i64; 12];
        numbers_of(line, &mut others);
        let scaled = [e.wrapping_mul(10), n.wrapping_mul(10), u.wrapping_mul(10)];
        beside(line, &scaled, &others);
    }
}
