// Document 02, request 4: the antenna heights, the observed U difference and the reduced one, each at its limits; and misclosures, which are of the reduced one.
use super::{judged, print_answer, print_baseline, print_fields};

// A baseline alike in E and N, of weight 100 in each component, with `en` in E and N.
fn weighted(from: i64, to: i64, plane: i64, up: i64, en: i64, hf: i64, ht: i64) {
    let observed = [plane, plane, up];
    let weights = [100, en, 0, 100, 0, 100];
    print_baseline(from, to, observed, weights);
    print_fields(&[hf, ht]);
    let b = network::baseline_of(from, to, observed, weights, [hf, ht]);
    print_answer(judged(b));
}

fn antennas(from: i64, to: i64, plane: i64, up: i64, hf: i64, ht: i64) {
    weighted(from, to, plane, up, 0, hf, ht);
}

// From station 1 to 3, 500,000,000 apart in each component, with these heights and this observed U difference.
fn to_third(hf: i64, ht: i64, up: i64) {
    antennas(1, 3, 500000000, up, hf, ht);
}

fn heights() {
    // from-height
    to_third(i64::MIN, 0, 500000000);
    to_third(-1, 0, 500000000);
    to_third(0, 0, 500000000);
    to_third(1, 0, 499999999);
    to_third(299999, 0, 499700001);
    to_third(300000, 0, 499700000);
    to_third(300001, 0, 499699999);
    to_third(i64::MAX, 0, 500000000);
    // to-height
    to_third(0, i64::MIN, 500000000);
    to_third(0, -1, 500000000);
    to_third(0, 1, 500000001);
    to_third(0, 299999, 500299999);
    to_third(0, 300000, 500300000);
    to_third(0, 300001, 500300001);
    to_third(0, i64::MAX, 500000000);
    // both
    to_third(300000, 300000, 500000000);
    to_third(300001, 300001, 500000000);
    to_third(-1, -1, 500000000);
    to_third(i64::MAX, i64::MAX, 500000000);
    to_third(i64::MIN, i64::MIN, 500000000);
    // exchanged
    to_third(150000, 50000, 499900000);
    to_third(50000, 150000, 499900000);
}

// Between the outermost stations: the reduced difference is out of range by the heights alone, or in range by them alone, in both directions.
fn reduced() {
    antennas(1, 2, 1000000000, 1000000000, 0, 0);
    antennas(1, 2, 1000000000, 1000000000, 1, 0);
    antennas(1, 2, 1000000000, 1000000000, 300000, 300000);
    antennas(1, 2, 1000000000, 1000000000, 300000, 299999);
    antennas(1, 2, 1000000000, 999700000, 300000, 0);
    antennas(1, 2, 1000000000, 999700001, 300000, 0);
    antennas(1, 2, 1000000000, 1000000001, 0, 0);
    antennas(1, 2, 1000000000, 1000000001, 0, 1);
    antennas(1, 2, 1000000000, i64::MAX, 300000, 0);
    antennas(1, 2, 1000000000, i64::MAX, 0, 300000);
    antennas(2, 1, -1000000000, -1000000000, 0, 0);
    antennas(2, 1, -1000000000, -1000000000, 0, 1);
    antennas(2, 1, -1000000000, -1000000000, 300000, 300000);
    antennas(2, 1, -1000000000, -1000000000, 299999, 300000);
    antennas(2, 1, -1000000000, -999700000, 0, 300000);
    antennas(2, 1, -1000000000, -999700001, 0, 300000);
    antennas(2, 1, -1000000000, -1000000001, 0, 0);
    antennas(2, 1, -1000000000, -1000000001, 1, 0);
    antennas(2, 1, -1000000000, i64::MIN, 0, 300000);
    antennas(2, 1, -1000000000, i64::MIN, 300000, 0);
}

// At the limits of a misclosure by the heights alone, in both directions.
fn misclosures() {
    to_third(0, 0, 500100000);
    to_third(1, 0, 500100000);
    to_third(0, 1, 500100001);
    to_third(0, 1, 500100002);
    to_third(0, 0, 499900000);
    to_third(0, 1, 499900000);
    to_third(1, 0, 499899999);
    to_third(1, 0, 499899998);
    to_third(300000, 0, 500000000);
    to_third(0, 300000, 500000000);
}

// Where several apply, the lowest number wins.
fn orders() {
    antennas(0, 3, 500000000, 500000000, -1, 0);
    antennas(1, 1, 0, 0, 0, 300001);
    weighted(1, 3, 500000000, 500000000, 100, 300001, 0);
    weighted(1, 3, 500000000, 500000000, 100, 300000, 0);
    weighted(1, 3, 500000000, 499700000, 99, 300000, 0);
    antennas(1, 3, 0, 500000000, 0, -1);
    antennas(1, 3, 0, 500000000, 0, 0);
}

pub(crate) fn run() {
    heights();
    reduced();
    misclosures();
    orders();
}
