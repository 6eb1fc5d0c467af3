// The chains of a book's records, and the first unknown without one.
ghost use Rattle.std.specs.Prelude.{◌≡◌, true, cond, ◌<◌, ◌≤◌, eqb, length, unwrap_or, IfSome};
ghost use Rattle.network.specs.Units.{most_stations, most_components};
ghost use Rattle.network.specs.Stations.{unknown_in};
ghost use Rattle.network.specs.Records.{is_position, from_of, to_of};
ghost use Rattle.network.specs.Places.{places_length, places_in};
ghost use Rattle.chains.specs.Bits.{bit, set_bit, put_in};
ghost use Rattle.chains.specs.Scans.{first_failing};
ghost use Rattle.chains.specs.Chains.{edge, edges, is_held, position_set, is_tied};
ghost use Rattle.chains.specs.ChainLaws.{EndsLow, EndsInRange, SameSet, held_or_in};

use super::passes::search;
use super::sets::{has, with};
use network::{Kind, Network, Record, Station, Unit};

// A record's ends in one number, those of station 0 twice where it does not act.
fn edge_of(r: Record, c: usize) -> usize
    requires { (from_of r < most_stations) × (to_of r < most_stations) }
    ensures { result ≡ edge c r }
{
    if network::acts_in(r, c) {
        return network::from_of(r) * Unit::STATIONS + network::to_of(r);
    }
    0
}

// The edges of lent places in component c, one to a place.
fn edges_in(places: &[i64], c: usize) -> [usize; Unit::PLACES]
    requires { (places_length ≤ length places.now) × EndsLow (places_in places.now) }
    ensures { result ≡ edges (places_in places.now) c }
{
    let mut out = [0usize; Unit::PLACES];
    for p in 0..Unit::PLACES {
        let r = network::record_at(places, p);
        let e = edge_of(r, c);
        out[p] = e;
    }
    out
}

// The set w, with station s put in where its kind holds component c.
fn with_held(w: u32, s: usize, k: Kind, c: usize) -> u32
    requires { s < most_stations }
    ensures { result ≡ cond (eqb (unknown_in k c) 0) (set_bit w s) w }
{
    if network::unknown_in(k, c) == 0 {
        return with(w, s);
    }
    w
}

// The set w, with those of the first n stations put in that are held in component c.
fn with_stations_held(n: usize, stations: [Station; Unit::STATIONS], c: usize, w: u32) -> u32
    requires { (n ≤ most_stations) × (c < 3) }
    ensures { result ≡ put_in n (is_held stations c) (λ s. s) w }
{
    let mut v = w;
    for s in 0..n {
        let x = stations[s];
        let k = x.kind;
        v = with_held(v, s, k, c);
    }
    v
}

// The set w, with the station of r put in where r is a position.
fn with_position(w: u32, r: Record) -> u32
    requires { to_of r < most_stations }
    ensures { result ≡ cond (is_position r) (set_bit w (to_of r)) w }
{
    if network::is_position(r) {
        return with(w, network::to_of(r));
    }
    w
}

// The stations of the positions among lent places.
fn positions_in(places: &[i64]) -> u32
    requires { (places_length ≤ length places.now) × EndsLow (places_in places.now) }
    ensures { result ≡ position_set (places_in places.now) }
{
    let mut w: u32 = 0;
    for p in 0..Unit::PLACES {
        let r = network::record_at(places, p);
        w = with_position(w, r);
    }
    w
}

// The stations that are tied in component c, where chains may end at those of the set `positions`.
fn tied_in(net: Network, places: &[i64], c: usize, positions: u32) -> u32
    requires { (places_length ≤ length places.now) × EndsInRange net (places_in places.now) × (c < 3) × (positions ≡ position_set (places_in places.now)) }
    ensures { SameSet net (places_in places.now) c result }
{
    let e = edges_in(places, c);
    let n = net.count;
    let stations = net.stations;
    let start = with_stations_held(n, stations, c, positions);
    search(&e, start)
}

// Whether a station's kind holds component c, or the station s is in the set w.
fn held_or_in(k: Kind, c: usize, w: u32, s: usize) -> bool
    requires { s < most_stations }
    ensures { result ≡ cond (eqb (unknown_in k c) 0) true (bit w s) }
{
    if network::unknown_in(k, c) == 0 {
        return true;
    }
    has(w, s)
}

// The first component, by station and then E, N, U, that is neither held nor in its set.
fn first_missing(stations: [Station; Unit::STATIONS], found: [u32; 3]) -> Option<usize>
    ensures position { unwrap_or result most_components ≡ first_failing most_components (held_or_in stations found) }
    ensures in_range { IfSome result (λ q. q < most_components) }
{
    for q in 0..Unit::COMPONENTS {
        let x = stations[q / 3];
        let k = x.kind;
        let w = found[q % 3];
        if !held_or_in(k, q % 3, w, q / 3) {
            return Some(q);
        }
    }
    None
}

// The first component, by station and then E, N, U, that is neither held nor tied.
pub fn first_untied(net: Network, places: &[i64]) -> Option<usize>
    requires { (places_length ≤ length places.now) × EndsInRange net (places_in places.now) }
    ensures position { unwrap_or result most_components ≡ first_failing most_components (is_tied net (places_in places.now)) }
    ensures in_range { IfSome result (λ q. q < most_components) }
{
    let positions = positions_in(places);
    let east = tied_in(net, places, 0, positions);
    let north = tied_in(net, places, 1, positions);
    let up = tied_in(net, places, 2, positions);
    let stations = net.stations;
    first_missing(stations, [east, north, up])
}
