// Opening: a list of numbers, four a station (kind, E, N, U), as a network, and refusal 1.
ghost use Rattle.std.specs.Prelude.{◌≡◌, ◌<◌, pos, get_or};
ghost use Rattle.network.specs.Units.{most_stations};
ghost use Rattle.network.specs.Stations.{kind_of, station_in, network_of, count_fits, kinds_fit, coordinates_fit, unknowns_fit, opens, open_no, is_blank, blank_beyond, network_fits};

use super::stations::{coordinate_at, coordinate_fits, number_of};
use super::{Kind, Network, Station, Unit};

// The number at i, 0 beyond the end.
fn number_in(list: &[i64], i: usize) -> i64
    ensures { result ≡ get_or list.now i (pos 0) }
{
    list.get(i).copied().unwrap_or(0)
}

// Kinds in numbers: 1 known, 2 free, 3 height; any other is read as known.
#[tactic(auto, unfolding(crate::specs::Stations::kind_at))]
fn kind_of(v: i64) -> Kind
    ensures { result ≡ kind_of v }
{
    match words::index_in(v, 3) {
        1 => Kind::Free,
        2 => Kind::Height,
        _ => Kind::Known,
    }
}

// Station s of the list, counted from 0.
#[tactic(auto, unfolding(crate::specs::Stations::station_in))]
fn station_in(list: &[i64], s: usize) -> Station
    requires { s < most_stations }
    ensures { result ≡ station_in list.now s }
{
    let i = s * 4;
    Station {
        kind: kind_of(number_in(list, i)),
        east: number_in(list, i + 1),
        north: number_in(list, i + 2),
        up: number_in(list, i + 3),
    }
}

// The network that a list gives, blank beyond its last station.
pub fn network_of(list: &[i64]) -> Network
    ensures { result ≡ network_of list.now }
{
    let blank = Station {
        kind: Kind::Known,
        east: 0,
        north: 0,
        up: 0,
    };
    let mut stations = [blank; Unit::STATIONS];
    for s in 0..Unit::STATIONS {
        stations[s] = station_in(list, s);
    }
    Network {
        count: list.len() / 4,
        stations,
    }
}

fn count_fits(n: usize) -> bool
    ensures { result ≡ count_fits n }
{
    (1..=Unit::STATIONS).contains(&n)
}

// Every station of the list has one of the three kinds.
fn kinds_fit(list: &[i64]) -> bool
    ensures { result ≡ kinds_fit list.now }
{
    (0..list.len() / 4).all(|s| (1..=3).contains(&number_in(list, s * 4)))
}

// Every provisional coordinate is in range.
pub fn coordinates_fit(stations: [Station; Unit::STATIONS]) -> bool
    ensures { result ≡ coordinates_fit stations }
{
    (0..Unit::COMPONENTS).all(|q| coordinate_fits(coordinate_at(&stations, q)))
}

// There are 1 to 48 unknowns.
#[tactic(auto, unfolding(crate::specs::Stations::unknowns_fit))]
fn unknowns_fit(stations: [Station; Unit::STATIONS]) -> bool
    ensures { result ≡ unknowns_fit stations }
{
    (1..=Unit::UNKNOWNS).contains(&number_of(stations, Unit::COMPONENTS))
}

// A list opens a book.
#[tactic(auto, unfolding(crate::specs::Stations::opens, crate::specs::Stations::whole_stations))]
pub fn opens(list: &[i64]) -> bool
    ensures { result ≡ opens list.now }
{
    if list.len() % 4 != 0 {
        return false;
    }
    if !count_fits(list.len() / 4) {
        return false;
    }
    if !kinds_fit(list) {
        return false;
    }
    let stations = network_of(list).stations;
    coordinates_fit(stations) && unknowns_fit(stations)
}

// The refusal number of an opening, 0 where it is not refused.
// Stays: the number of the one refusal; the definition `open_no` has it, `Replayed` speaks of it, and `opens` is the same as a test.
pub fn open_no(list: &[i64]) -> u64
    ensures { result ≡ open_no list.now }
{
    if opens(list) { 0 } else { 1 }
}

#[tactic(auto, unfolding(crate::specs::Stations::is_blank, crate::specs::Stations::is_known))]
fn is_blank(x: Station) -> bool
    ensures { result ≡ is_blank x }
{
    matches!(x.kind, Kind::Known) && x.east == 0 && x.north == 0 && x.up == 0
}

// What lies beyond the last station is blank.
fn blank_beyond(net: Network) -> bool
    ensures { result ≡ blank_beyond net }
{
    (0..Unit::STATIONS).all(|s| s < net.count || is_blank(net.stations[s]))
}

// A network by the rules, as a value.
#[tactic(auto, unfolding(crate::specs::Stations::network_fits))]
pub fn network_fits(net: Network) -> bool
    ensures { result ≡ network_fits net }
{
    count_fits(net.count)
        && blank_beyond(net)
        && coordinates_fit(net.stations)
        && unknowns_fit(net.stations)
}
