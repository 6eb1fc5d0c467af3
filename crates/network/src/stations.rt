// The tables over the 96 components of a station list: component q is component q % 3 (E, N, U) of station q / 3.
ghost use Rattle.std.specs.Prelude.{◌≡◌, ◌<◌, ◌≤◌};
ghost use Rattle.network.specs.Units.{most_components, most_unknowns};
ghost use Rattle.network.specs.Stations.{unknown_in, unknown, unknown_table, number, index_table, component_of, coordinate_in, coordinate_fits, coordinate, coordinates};
ghost use Rattle.integers.specs.Tables.{tabulate};

use super::{Kind, Station, Unit};

// 1 where the kind leaves component c unknown.
#[tactic(auto, unfolding(crate::specs::Stations::unknown_in))]
pub fn unknown_in(k: Kind, c: usize) -> usize
    ensures { result ≡ unknown_in k c }
{
    match k {
        Kind::Known => 0,
        Kind::Free => 1,
        Kind::Height => { if c == 2 { 1 } else { 0 } }
    }
}

// 1 where component q is unknown.
#[tactic(auto, unfolding(crate::specs::Stations::unknown))]
fn unknown_at(stations: &[Station; Unit::STATIONS], q: usize) -> usize
    requires { q < most_components }
    ensures { result ≡ unknown stations.now q }
{
    unknown_in(stations[q / 3].kind, q % 3)
}

// 1 at each unknown component, 0 at each held one.
pub fn unknowns_of(stations: [Station; Unit::STATIONS]) -> [i64; Unit::COMPONENTS]
    ensures { result ≡ unknown_table stations }
{
    let mut out = [0i64; Unit::COMPONENTS];
    for q in 0..Unit::COMPONENTS {
        out[q] = unknown_at(&stations, q) as i64;
    }
    out
}

// The number of each unknown, from 0, and 0 at a held component.
pub fn numbers_of(stations: [Station; Unit::STATIONS]) -> [usize; Unit::COMPONENTS]
    ensures { result ≡ index_table stations }
{
    let mut out = [0usize; Unit::COMPONENTS];
    let mut n = 0;
    for q in 0..Unit::COMPONENTS {
        let b = unknown_at(&stations, q);
        out[q] = b * n;
        n += b;
    }
    out
}

// How many unknowns stand before component q: the number of an unknown q, and of all of them where q is 96.
pub fn number_of(stations: [Station; Unit::STATIONS], q: usize) -> usize
    requires { q ≤ most_components }
    ensures { result ≡ number stations q }
{
    let mut n = 0;
    for i in 0..q {
        n += unknown_at(&stations, i);
    }
    n
}

// The component of each unknown, by its number, and 96 beyond the last.
pub fn components_of(stations: [Station; Unit::STATIONS]) -> [usize; Unit::UNKNOWNS]
    ensures { result ≡ tabulate most_unknowns (component_of stations) }
{
    let mut out = [Unit::COMPONENTS; Unit::UNKNOWNS];
    let mut n = 0;
    for q in 0..Unit::COMPONENTS {
        let b = unknown_at(&stations, q);
        if b == 1 && n < Unit::UNKNOWNS {
            out[n] = q;
        }
        n += b;
    }
    out
}

// The provisional coordinate in component c.
#[tactic(auto, unfolding(crate::specs::Stations::coordinate_in))]
pub fn coordinate_in(x: Station, c: usize) -> i64
    ensures { result ≡ coordinate_in x c }
{
    match c {
        0 => x.east,
        1 => x.north,
        _ => x.up,
    }
}

// A coordinate, provisional or of a position, is in range.
pub(crate) fn coordinate_fits(v: i64) -> bool
    ensures { result ≡ coordinate_fits v }
{
    v.unsigned_abs() <= Unit::COORDINATE
}

// The provisional coordinate at component q.
#[tactic(auto, unfolding(crate::specs::Stations::coordinate))]
pub(crate) fn coordinate_at(stations: &[Station; Unit::STATIONS], q: usize) -> i64
    requires { q < most_components }
    ensures { result ≡ coordinate stations.now q }
{
    coordinate_in(stations[q / 3], q % 3)
}

// The provisional coordinates.
pub fn coordinates_of(stations: [Station; Unit::STATIONS]) -> [i64; Unit::COMPONENTS]
    ensures { result ≡ coordinates stations }
{
    let mut out = [0i64; Unit::COMPONENTS];
    for q in 0..Unit::COMPONENTS {
        out[q] = coordinate_at(&stations, q);
    }
    out
}
