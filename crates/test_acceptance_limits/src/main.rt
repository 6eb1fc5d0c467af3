// Prints the answer to a pair (x, M) at the limits of the tests: wrong lengths, chains that lack a component, numbers at a limit, one beyond it and at the
// extremes of 64 bits. A line gives the case, then the answer's number and for 11 the unknown; document 01 decides what stands in `stdout`. Every book here is
// by the rules, and N and u are those of its records.
#![tactic(auto)]

ghost use Rattle.std.specs.Prelude.{◌≡◌, true, ◌≤◌, length};
ghost use Rattle.lists.specs.All.{all_below};
ghost use Rattle.network.specs.Stations.{coordinates_fit};
ghost use Rattle.network.specs.Records.{record_at};
ghost use Rattle.network.specs.Places.{places_length, places_in};
ghost use Rattle.network.specs.Rules.{record_fits};

use acceptance::Refusal;
use network::{Network, Place, Record, Unit};
use normals::Normals;

// Whether each place is empty or holds a record that is not refused.
fn all_fit(net: Network, places: &[i64]) -> bool
    requires { (places_length ≤ length places.now) × (net.count ≤ 32) × (coordinates_fit net.stations ≡ true) }
    ensures { result ≡ all_below 256 (λ p. record_fits net (record_at (places_in places.now) p)) }
{
    (0..Unit::PLACES).all(|p| network::record_fits(net, network::record_at(places, p)))
}

// Stays: each test program prints its signed numbers itself, since it stands alone, and a contract of a shared function could state nothing of what it prints.
fn print_field(v: i64) {
    io::write_all(1, b" ");
    if v < 0 {
        io::write_all(1, b"-");
    }
    io::print_decimal(1, v.unsigned_abs());
}

fn print_list(list: &[i64]) {
    for v in list {
        print_field(*v);
    }
}

fn print_answer(answer: Result<(), Refusal>) {
    io::write_all(1, b": ");
    io::print_decimal(1, acceptance::number(answer));
    if let Err(Refusal::Untied(unknown)) = answer {
        io::write_all(1, b" unknown ");
        io::print_decimal(1, unknown);
    }
    io::write_all(1, b"\n");
}

// The answer to x and M, unless the network or a record is against the rules.
fn print_judged(net: Network, places: [Place; Unit::PLACES], x: &[i64], m: &[i64]) {
    if !network::network_fits(net) {
        io::write_all(1, b": network against the rules\n");
        return;
    }
    let w = network::place_words(places);
    if !all_fit(net, &w) {
        io::write_all(1, b": record against the rules\n");
        return;
    }
    let normals = Normals::of(net, &w);
    let matrix = normals.matrix;
    let right = normals.right;
    print_answer(acceptance::accept(net, &w, &matrix, &right, x, m, true));
}

// The same with x and M before it.
fn print_pair(net: Network, places: [Place; Unit::PLACES], x: &[i64], m: &[i64]) {
    io::write_all(1, b"X");
    print_list(x);
    io::write_all(1, b" M");
    print_list(m);
    print_judged(net, places, x, m);
}

fn height(from: i64, to: i64, up: i64, weight: i64) -> Place {
    let h = network::height_of(from, to, up, weight);
    Place { entry: h }
}

// A baseline alike in E, N and U: its differences, its weights, and those between two components.
fn baseline(from: i64, to: i64, difference: i64, weight: i64, between: i64) -> Place {
    let b = network::baseline_of(
        from,
        to,
        [difference, difference, difference],
        [weight, between, between, weight, between, weight],
        [0, 0],
    );
    Place { entry: b }
}

fn nothing() -> [Place; Unit::PLACES] {
    [Place {
        entry: Record::Empty,
    }; Unit::PLACES]
}

// The two height differences of document 01's first network.
fn levels(x: &[i64], m: &[i64]) {
    let list = [1, 0, 0, 100000, 3, 0, 0, 101000];
    let net = network::network_of(&list);
    let mut places = nothing();
    places[0] = height(1, 2, 1000, 100);
    places[1] = height(1, 2, 1100, 100);
    print_pair(net, places, x, m);
}

// "lengths are n and n·n": n is 1.
fn lengths() {
    levels(&[], &[5368709]);
    levels(&[50], &[]);
    levels(&[50], &[5368709]);
    levels(&[50], &[5368709, 0]);
    levels(&[50, 0], &[5368709]);
    levels(&[50, 0], &[5368709, 0, 0]);
}

fn corrections() {
    for x in [
        50,
        51,
        49,
        100000,
        100001,
        -100000,
        -100001,
        9223372036854775807,
        -9223372036854775808,
    ] {
        levels(&[x], &[5368709]);
    }
}

// In the last four S − 200·M is 67108824, −67108776, and beyond on either side.
fn inverses() {
    for m in [
        0,
        17179869184,
        17179869185,
        -17179869184,
        -17179869185,
        9223372036854775807,
        -9223372036854775808,
        5033165,
        5033164,
        5704253,
        5704254,
    ] {
        levels(&[50], &[m]);
    }
}

// Test 5 in one entry: a record of weight 1 makes N 1, and S − M is as named: at the limit or beyond it.
fn defects() {
    let list = [1, 0, 0, 0, 3, 0, 0, 0];
    let mut places = nothing();
    places[0] = height(1, 2, 0, 1);
    for (defect, m) in [
        (67108864, 1006632960),
        (67108865, 1006632959),
        (-67108864, 1140850688),
        (-67108865, 1140850689),
    ] {
        io::write_all(1, b"S - MN");
        print_field(defect);
        io::write_all(1, b": ");
        print_pair(network::network_of(&list), places, &[0], &[m]);
    }
}

// Test 5 in the sizes of a row: two stations with a record of weight 1 each make N the unit matrix. M's first row is S − 2^25 and `m`.
fn row_defects() {
    let list = [1, 0, 0, 0, 3, 0, 0, 0, 3, 0, 0, 0];
    let mut places = nothing();
    places[0] = height(1, 2, 0, 1);
    places[1] = height(1, 3, 0, 1);
    for (second, m) in [
        (-33554432, 33554432),
        (-33554433, 33554433),
        (33554432, -33554432),
        (33554433, -33554433),
    ] {
        io::write_all(1, b"S - MN 33554432");
        print_field(second);
        io::write_all(1, b": ");
        print_pair(
            network::network_of(&list),
            places,
            &[0, 0],
            &[1040187392, m, 0, 1073741824],
        );
    }
}

// M of the book below: S times the inverse of its N, rounded.
const INVERSE: [i64; 36] = [
    5368709, 0, 0, 5368709, 0, 0, 0, 5368709, 0, 0, 5368709, 0, 0, 0, 5368709, 0, 0, 5368709,
    5368709, 0, 0, 8186976, -1409063, -1409063, 0, 5368709, 0, -1409063, 8186976, -1409063, 0, 0,
    5368709, -1409063, -1409063, 8186976,
];

// Test 6: with x 0, r is u. An accepted pair with r at 2^23 takes the heaviest records: 253 between two free stations, and one of weight 1 that brings r to
// the limit. With misclosures of 1, 27 and 19066 their share of u is 29998·(252·1 + 27) + 19066 = 2^23 − 100 at station 3 and the opposite at station 2, where
// two ties of weight 100 with misclosures 0 and −1 take 100 off.
fn residuals() {
    let list = [1, 0, 0, 0, 2, 0, 0, 0, 2, 0, 0, 0];
    for (r, each, other, rest, tie) in [
        (-8388608, 1, 27, 19066, -1),
        (-8388609, 1, 27, 19067, -1),
        (8388608, -1, -27, -19066, 1),
        (8388609, -1, -27, -19067, 1),
    ] {
        let mut places = [baseline(2, 3, each, 10000, 9999); Unit::PLACES];
        places[0] = baseline(2, 3, other, 10000, 9999);
        places[1] = baseline(2, 3, rest, 1, 0);
        places[2] = baseline(1, 2, 0, 100, 0);
        places[3] = baseline(1, 2, tie, 100, 0);
        io::write_all(1, b"r");
        print_field(r);
        print_judged(network::network_of(&list), places, &[0; 6], &INVERSE);
    }
}

// Test 7: records of weights 32 and 1 make N 33; the first misclosure and x are 0, so r is the second. 15·2^26 is 30·2^25 and 15·2^26 + 1 is 31·32472031, and
// S/33 is near both 2^25 and 32472031.
fn refinements() {
    let list = [1, 0, 0, 0, 3, 0, 0, 0];
    for (refinement, second, m) in [
        (1006632960, 30, 33554432),
        (1006632961, 31, 32472031),
        (-1006632960, -30, 33554432),
        (-1006632961, -31, 32472031),
    ] {
        let mut places = nothing();
        places[0] = height(1, 2, 0, 32);
        places[1] = height(1, 2, second, 1);
        io::write_all(1, b"Mr");
        print_field(refinement);
        io::write_all(1, b": ");
        print_pair(network::network_of(&list), places, &[0], &[m]);
    }
}

// A known, a free and a height station, joined as the flags say; x and M are 0, so that tied stations are refused with 14.
fn chain(plane: bool, first: bool, second: bool) {
    let list = [1, 0, 0, 0, 2, 0, 0, 0, 3, 0, 0, 0];
    let mut places = nothing();
    io::write_all(1, b"chain");
    if plane {
        io::write_all(1, b" baseline 1 2");
        places[7] = baseline(1, 2, 0, 100, 0);
    }
    if first {
        io::write_all(1, b" height 1 2");
        places[255] = height(1, 2, 0, 100);
    }
    if second {
        io::write_all(1, b" height 3 2");
        places[0] = height(3, 2, 0, 100);
    }
    print_judged(network::network_of(&list), places, &[0; 4], &[0; 16]);
}

fn chains() {
    for (plane, first, second) in [
        (false, false, false),
        (false, true, false),
        (false, true, true),
        (true, false, false),
        (true, true, false),
        (true, false, true),
        (true, true, true),
    ] {
        chain(plane, first, second);
    }
}

fn main() {
    lengths();
    corrections();
    inverses();
    defects();
    row_defects();
    residuals();
    refinements();
    chains();
}
