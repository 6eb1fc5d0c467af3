// Document 02, request 5: positions, at both sides of each limit of refusals 3 to 6. Weights are judged beside a baseline's.
use super::variants::with;
use super::{GOOD, judged, judged_over, list_of, print_answer, print_fields};
use network::Record;

// Weights whose second leading minor is 0.
const SINGULAR: [i64; 6] = [100, 100, 0, 100, 0, 100];

fn print_position(station: i64, observed: [i64; 3], weights: [i64; 6]) -> Record {
    io::write_all(1, b"P");
    print_fields(&[station]);
    print_fields(&observed);
    print_fields(&weights);
    network::position_of(station, observed, weights)
}

fn position(station: i64, observed: [i64; 3], weights: [i64; 6]) {
    let p = print_position(station, observed, weights);
    print_answer(judged(p));
}

fn observed(station: i64, east: i64, north: i64, up: i64) {
    position(station, [east, north, up], GOOD);
}

// At the third station.
pub(crate) fn weights(w: [i64; 6]) {
    position(3, [0, 0, 0], w);
}

// One coordinate apart from the station's provisional ones, which are alike in E, N and U.
fn apart(station: i64, provisional: i64, coordinate: i64) {
    for at in 0..3 {
        position(station, with([provisional; 3], at, coordinate), GOOD);
    }
}

// The station: in the list, with coordinates of its own and of another; outside the list.
fn stations() {
    observed(1, -500000000, -500000000, -500000000);
    observed(2, 500000000, 500000000, 500000000);
    observed(3, 0, 0, 0);
    observed(1, 0, 0, 0);
    observed(2, 0, 0, 0);
    observed(i64::MIN, 0, 0, 0);
    observed(-1, 0, 0, 0);
    observed(0, 0, 0, 0);
    observed(4, 0, 0, 0);
    observed(32, 0, 0, 0);
    observed(33, 0, 0, 0);
    observed(i64::MAX, 0, 0, 0);
}

// Over 32 stations of unknown height, the most that a list has.
fn of_32(station: i64) {
    let list = list_of(0, 32);
    let net = network::network_of(&list[0..128]);
    io::write_all(1, b"of 32 stations: ");
    let p = print_position(station, [0, 0, 0], GOOD);
    print_answer(judged_over(net, p));
}

fn longest_list() {
    for station in [0, 1, 32, 33] {
        of_32(station);
    }
}

// Each coordinate, at the first station and the second, which are at the two ends of the range.
fn coordinates() {
    apart(1, -500000000, -500000001);
    apart(1, -500000000, i64::MIN);
    apart(2, 500000000, 500000001);
    apart(2, 500000000, i64::MAX);
}

// Misclosures in each component.
fn misclosures() {
    apart(1, -500000000, -499900000);
    apart(1, -500000000, -499899999);
    apart(2, 500000000, 499900000);
    apart(2, 500000000, 499899999);
    for coordinate in [-100001, -100000, 100000, 100001] {
        apart(3, 0, coordinate);
    }
}

// Where several apply, the lowest number wins.
fn orders() {
    // 3 to 5; a station that is not in the list has no misclosure
    position(4, [500000001, 0, 0], SINGULAR);
    // 3 and 4
    observed(4, 0, 500000001, 0);
    // 3 and 5
    position(4, [0, 0, 0], SINGULAR);
    // 4 to 6: a coordinate, and a weight
    position(3, [0, 0, -500000001], SINGULAR);
    position(3, [100001, 0, 0], [100, 100, 0, 100, 0, 10001]);
    // 4 and 5
    position(1, [-500000000, -500000001, -500000000], SINGULAR);
    position(3, [0, 0, 0], [100, 100, 0, 100, 0, 0]);
    // 4 and 6
    observed(2, 500000000, -500000001, 500000000);
    position(3, [0, 100001, 0], [0, 0, 0, 100, 0, 100]);
    // 5 and 6
    position(3, [0, 0, 100001], SINGULAR);
    // 6 alone, from one end of the range to the other
    observed(1, 500000000, 500000000, 500000000);
}

pub(crate) fn run() {
    stations();
    longest_list();
    coordinates();
    misclosures();
    orders();
}
