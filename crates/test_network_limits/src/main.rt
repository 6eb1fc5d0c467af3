// Prints the refusal number at each limit of refusals 1 and 3 to 6: at it, one short of it and one beyond it, of both signs, and the extremes of 64 bits; then the weights of standard
// deviations, about the largest and the smallest weight.
// A line gives the case and then the number; documents 01 and 02 decide what stands in `stdout`.
#![tactic(auto)]

mod antennas;
mod positions;
mod variants;

use network::{Network, Record, Unit};
use variants::{each, with};

// Stays: private here, beside the like in other test programs: each stands alone, and a shared function could promise nothing of what it prints.
fn print_field(v: i64) {
    io::write_all(1, b" ");
    if v < 0 {
        io::write_all(1, b"-");
    }
    io::print_decimal(1, v.unsigned_abs());
}

fn print_fields(list: &[i64]) {
    for v in list {
        print_field(*v);
    }
}

// The number of what was judged; 99 where nothing was.
fn print_answer(answer: Option<u64>) {
    io::write_all(1, b": ");
    io::print_decimal(1, answer.unwrap_or(99));
    io::write_all(1, b"\n");
}

// ---- refusal 1

// 34 stations at 0: free ones, then height ones, the others known.
fn list_of(free: u8, height: u8) -> [i64; 136] {
    let mut list = [0i64; 136];
    for s in 0..34 {
        list[s * 4] = kind_at(s, usize::from(free), usize::from(height));
    }
    list
}

fn kind_at(s: usize, free: usize, height: usize) -> i64 {
    if s < free {
        return 2;
    }
    if s - free < height {
        return 3;
    }
    1
}

fn print_count(n: u8, what: &[u8]) {
    io::print_decimal(1, u64::from(n));
    io::write_all(1, what);
}

// The first stations of such a list, with `over` words more.
fn list(free: u8, height: u8, known: u8, over: u8) {
    let words = list_of(free, height);
    io::write_all(1, b"open ");
    print_count(free, b" free ");
    print_count(height, b" height ");
    print_count(known, b" known ");
    print_count(over, b" words over");
    let count = usize::from(free) + usize::from(height) + usize::from(known);
    let end = count * 4 + usize::from(over);
    print_answer(words.get(..end).map(|w| network::open_no(w)));
}

// Counts of stations and unknowns, and words over.
// Stays: here and wherever several numbers change from case to case, one call a case: as rows of an array they would be as many lines.
fn lists() {
    list(0, 0, 0, 0);
    list(0, 0, 0, 1);
    list(0, 0, 0, 3);
    list(0, 1, 0, 0);
    list(0, 1, 0, 1);
    list(0, 1, 0, 2);
    list(0, 1, 0, 3);
    list(0, 32, 0, 0);
    list(0, 32, 0, 1);
    list(0, 33, 0, 0);
    list(1, 0, 31, 0);
    list(1, 0, 32, 0);
    list(0, 0, 1, 0);
    list(0, 0, 32, 0);
    list(16, 0, 0, 0);
    list(15, 3, 0, 0);
    list(16, 1, 0, 0);
    list(16, 0, 16, 0);
    list(17, 0, 0, 0);
    list(0, 0, 0, 2);
}

// A station of each kind, before a height one.
fn kind(number: i64) {
    let list = [number, 0, 0, 0, 3, 0, 0, 0];
    io::write_all(1, b"open");
    print_fields(&list);
    print_answer(Some(network::open_no(&list)));
}

fn kinds() {
    for number in [-1, 0, 1, 2, 3, 4, i64::MIN, i64::MAX] {
        kind(number);
    }
}

// A free station.
fn coordinate(components: [i64; 3]) {
    let [east, north, up] = components;
    let list = [2, east, north, up];
    io::write_all(1, b"open");
    print_fields(&list);
    print_answer(Some(network::open_no(&list)));
}

fn coordinates() {
    let limits = [
        i64::MIN,
        -500000001,
        -500000000,
        500000000,
        500000001,
        i64::MAX,
    ];
    each(&[0, 1, 2], &limits, |at, v| coordinate(with([0; 3], at, v)));
}

// ---- refusals 3 to 6

// Three stations: known and free at the two ends of the range, height between them.
fn stations() -> Network {
    let list = [
        1, -500000000, -500000000, -500000000, 2, 500000000, 500000000, 500000000, 3, 0, 0, 0,
    ];
    network::network_of(&list)
}

// The number of a record over them.
fn judged(r: Record) -> Option<u64> {
    judged_over(stations(), r)
}

// The number of a record over these stations, unless they themselves break the rules.
fn judged_over(net: Network, r: Record) -> Option<u64> {
    if !network::network_fits(net) {
        return None;
    }
    match network::judge_record(net, r) {
        Ok(()) => Some(0),
        Err(refusal) => Some(u64::from(refusal)),
    }
}

// Weights in range: EE, EN, EU, NN, NU, UU.
const GOOD: [i64; 6] = [100, 0, 0, 100, 0, 100];

// All of a baseline but its antennas' heights.
fn print_baseline(from: i64, to: i64, observed: [i64; 3], weights: [i64; 6]) {
    io::write_all(1, b"B");
    print_fields(&[from, to]);
    print_fields(&observed);
    print_fields(&weights);
}

fn baseline(from: i64, to: i64, observed: [i64; 3], weights: [i64; 6]) {
    print_baseline(from, to, observed, weights);
    let b = network::baseline_of(from, to, observed, weights, [0, 0]);
    print_answer(judged(b));
}

// A baseline and a position in range throughout but for these weights.
fn weights(w: [i64; 6]) {
    baseline(1, 3, [500000000; 3], w);
    positions::weights(w);
}

// From and to, one of them in range: in the list, outside it, equal.
const ENDS: [(i64, i64); 19] = [
    // in range throughout
    (1, 3),
    // from
    (i64::MIN, 3),
    (-1, 3),
    (0, 3),
    (2, 3),
    (3, 3),
    (4, 3),
    (32, 3),
    (33, 3),
    (i64::MAX, 3),
    // to
    (1, i64::MIN),
    (1, -1),
    (1, 0),
    (1, 1),
    (1, 2),
    (1, 4),
    (1, 32),
    (1, 33),
    (1, i64::MAX),
];

fn baseline_ends() {
    for (from, to) in ENDS {
        baseline(from, to, [500000000; 3], GOOD);
    }
}

// Each of these numbers in each observed component, with `other` in the other two.
fn each_observed(from: i64, to: i64, other: i64, numbers: &[i64]) {
    each(
        &[0, 1, 2],
        numbers,
        |at, v| baseline(from, to, with([other; 3], at, v), GOOD),
    );
}

// Observed components, both ways between the outermost stations.
fn baseline_observed() {
    each_observed(1, 2, 1000000000, &[1000000000, 1000000001, i64::MAX]);
    each_observed(2, 1, -1000000000, &[-1000000000, -1000000001, i64::MIN]);
}

// Each of these numbers in place of each of these weights.
fn each_weight(others: [i64; 6], indices: &[usize], numbers: &[i64]) {
    each(indices, numbers, |at, w| weights(with(others, at, w)));
}

// Weights on the diagonal.
fn diagonals() {
    let limits = [i64::MIN, -1, 0, 1, 10000, 10001, i64::MAX];
    each_weight(GOOD, &[0, 3, 5], &limits);
}

// Off-diagonal weights: in range with a minor that is 0, and out of range.
fn off_diagonals() {
    let limits = [
        i64::MIN,
        -10001,
        -10000,
        -9999,
        9999,
        10000,
        10001,
        i64::MAX,
    ];
    each_weight([10000, 0, 0, 10000, 0, 10000], &[1, 2, 4], &limits);
}

// Minors and determinants about 0.
fn minors() {
    each_weight(GOOD, &[1, 2, 4], &[-100, -99, 99, 100]);
    // determinant
    weights([100, -60, -60, 100, -60, 100]);
    weights([100, -40, -40, 100, -40, 100]);
    // the second leading minor and the determinant are 1
    weights([2, 5, 0, 13, 0, 1]);
    // the second leading minor is 0, and -1
    weights([1, 1, 0, 1, 0, 1]);
    weights([1, 2, 0, 3, 0, 1]);
    // the second leading minor is 1, the determinant 0
    weights([1, 0, 1, 1, 0, 1]);
    weights([1, 0, 0, 1, 1, 1]);
    // the second leading minor is negative, the determinant positive
    weights([1, 2, 2, 1, 2, 1]);
}

// Each entry of the adjugate's diagonal at 16 determinants, and one more.
fn adjugates() {
    // adjugate E is 16 determinants
    weights([1, 15, 0, 240, 0, 1]);
    // and one more
    weights([1, 4, 0, 17, 0, 1]);
    // adjugate N
    weights([240, 15, 0, 1, 0, 1]);
    // and one more
    weights([17, 4, 0, 1, 0, 1]);
    // adjugate U
    weights([1, 0, 0, 240, 15, 1]);
    // and one more
    weights([1, 0, 0, 17, 4, 1]);
}

// Misclosures in each component.
fn baseline_misclosures() {
    each_observed(
        1,
        3,
        500000000,
        &[499899999, 499900000, 500100000, 500100001],
    );
}

// Where several apply, the lowest number wins.
fn baseline_orders() {
    // lowest wins: 3 to 6
    baseline(0, 3, [i64::MAX, 0, 500000000], [0, 100, 0, 100, 0, 100]);
    // 4 to 6
    baseline(1, 3, [i64::MAX, 0, 500000000], [100, 100, 0, 100, 0, 100]);
    // 5 and 6
    baseline(1, 3, [500000000, 0, 500000000], [100, 100, 0, 100, 0, 100]);
    // 6 alone
    baseline(1, 3, [500000000, 0, 500000000], GOOD);
}

fn height(from: i64, to: i64, up: i64, weight: i64) {
    io::write_all(1, b"H");
    print_fields(&[from, to, up, weight]);
    let h = network::height_of(from, to, up, weight);
    print_answer(judged(h));
}

fn height_ends() {
    for (from, to) in ENDS {
        height(from, to, 500000000, 100);
    }
}

// Observed components, both ways between the outermost stations.
fn height_observed() {
    // observed 1 to 2
    height(1, 2, 1000000000, 100);
    height(1, 2, 1000000001, 100);
    height(1, 2, i64::MAX, 100);
    // observed 2 to 1
    height(2, 1, -1000000000, 100);
    height(2, 1, -1000000001, 100);
    height(2, 1, i64::MIN, 100);
}

fn height_weights() {
    for weight in [i64::MIN, -1, 0, 1, 10000, 10001, i64::MAX] {
        height(1, 3, 500000000, weight);
    }
}

// Misclosures in each component.
fn height_misclosures() {
    for up in [499899999, 499900000, 500100000, 500100001] {
        height(1, 3, up, 100);
    }
}

// Where several apply, the lowest number wins.
fn height_orders() {
    // lowest wins: 3, 4, 6
    height(1, 0, i64::MIN, 0);
    // 4 and 6
    height(1, 3, i64::MIN, 0);
    // 6 alone
    height(1, 3, 0, 100);
}

// ---- the scale of weights

// The weight of a standard deviation in units.
fn weight(deviation: u64) {
    io::write_all(1, b"deviation ");
    io::print_decimal(1, deviation);
    io::write_all(1, b":");
    print_field(Unit::weight_of(deviation));
    io::write_all(1, b"\n");
}

// "Weight 1 means a standard deviation of 10 mm (1,000 units); 1 mm is weight 100": proved of the constants.
fn named_weights() {
    let ten = Unit::weight_of(Unit::DEVIATION_AT_WEIGHT_ONE);
    check::expect(ten == 1);
    let one = Unit::weight_of(Unit::MILLIMETRE);
    check::expect(one == Unit::WEIGHT_AT_MILLIMETRE);
}

fn deviations() {
    for deviation in [
        0,
        1,
        // the largest weight that a record takes
        9,
        10,
        11,
        Unit::MILLIMETRE,
        Unit::DEVIATION_AT_WEIGHT_ONE,
        // the smallest
        1414,
        1415,
        2000,
        2001,
        u64::MAX,
    ] {
        weight(deviation);
    }
}

fn main() {
    lists();
    kinds();
    coordinates();
    io::write_all(1, b"E");
    print_answer(judged(Record::Empty));
    baseline_ends();
    baseline_observed();
    diagonals();
    off_diagonals();
    minors();
    adjugates();
    baseline_misclosures();
    baseline_orders();
    antennas::run();
    positions::run();
    height_ends();
    height_observed();
    height_weights();
    height_misclosures();
    height_orders();
    named_weights();
    deviations();
}
