// Calls in rows of words, answered by `replay`.
use super::samples;
use network::Record;

// A row: the call (1 enter, 2 strike, 3 undo), the place, and the words of a record.
fn row(call: i64, place: i64, entry: Record) -> [i64; 16] {
    let mut w = [0i64; 16];
    w[0] = call;
    w[1] = place;
    w[2..].copy_from_slice(&network::record_words(entry));
    w
}

// Enters a baseline from station 1 to 2 at place 1. The provisional U difference is 1,000: the observed one is 1.1 m off.
fn baseline(hf: i64, ht: i64) -> [i64; 16] {
    let b = network::baseline_of(1, 2, [0, 0, -109000], [100, 0, 0, 100, 0, 100], [hf, ht]);
    row(1, 1, b)
}

// Enters at a place, in words, a position of station 2; with any kind but 4 it is none.
fn position(place: i64, kind: i64) -> [i64; 16] {
    [
        1, place, kind, 2, 0, 30, -40, 101500, 100, 20, 0, 100, 0, 100, 0, 0,
    ]
}

// Fifteen rows, and fifteen words more, which are no row: a baseline whose reduced difference closes; the heights exchanged (6); one out of range (4); a height difference over the
// baseline; its strike; two undos, which bring the baseline back; a fourth call, which has no name (-1); a strike of an empty place (7); a position over the baseline; an undo, which
// brings the baseline back; a position at an empty place; a height difference over it; an undo, which brings the position back; kind 3, which is no record (3).
fn calls() -> [i64; 255] {
    let rows = [
        baseline(160000, 50000),
        baseline(50000, 160000),
        baseline(160000, 300001),
        row(1, 1, samples::level()),
        row(2, 1, Record::Empty),
        row(3, 0, Record::Empty),
        row(3, 0, Record::Empty),
        row(4, 1, Record::Empty),
        row(2, 2, Record::Empty),
        position(1, 4),
        row(3, 0, Record::Empty),
        position(2, 4),
        row(1, 2, samples::level()),
        row(3, 0, Record::Empty),
        position(2, 3),
    ];
    let mut w = [0i64; 255];
    for (k, row) in rows.iter().enumerate() {
        w[k * 16..k * 16 + 16].copy_from_slice(row);
    }
    w
}

// Stays: private here, beside the like in other test programs: each stands alone, and a shared function could promise nothing of what it prints.
fn print_word(v: i64) {
    io::write_all(1, b" ");
    if v < 0 {
        io::write_all(1, b"-");
    }
    io::print_decimal(1, v.unsigned_abs());
}

fn print_words(name: &[u8], list: &[i64]) {
    io::write_all(1, name);
    for v in list {
        print_word(*v);
    }
    io::write_all(1, b"\n");
}

// The answers to fifteen rows, and one that stays; then the words of the baseline at place 1 and of the position at place 2.
pub(crate) fn run() {
    let rows = calls();
    let mut a = [99i64; 16];
    let list = samples::list();
    let left = book::replay(&list, &rows, &mut a);
    print_words(b"rows, by their answers:", &a);
    let Ok(b) = left else {
        return;
    };
    let [first, second, ..] = b.places;
    print_words(b"words at place 1:", &network::record_words(first.entry));
    print_words(b"words at place 2:", &network::record_words(second.entry));
}
