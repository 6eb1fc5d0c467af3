// What the lines of a sheet and T are worked out from: the components of the station list, each with its number among the unknowns, its coordinate and its correction.
ghost use Rattle.std.specs.Prelude.{◌≡◌, ◌≤◌};
ghost use Rattle.integers.specs.Tables.{Within};
ghost use Rattle.network.specs.Units.{most_components};
ghost use Rattle.network.specs.Stations.{unknown_count, number, index_table, unknown_table, coordinates};
ghost use Rattle.residuals.specs.Components.{corrections_of};

use network::{Station, Unit};

#[derive(Drop)]
pub struct Tables {
    pub n: usize,
    pub number: [usize; Unit::COMPONENTS],
    pub unknown: [i64; Unit::COMPONENTS],
    pub coordinate: [i64; Unit::COMPONENTS],
    pub correction: [i64; Unit::COMPONENTS],
}

pub fn tables_of(stations: [Station; Unit::STATIONS], x: &[i64]) -> Tables
    requires { (1 ≤ unknown_count stations) × Within (unknown_count stations) 100000 x.now }
    ensures n { result.n ≡ number stations most_components }
    ensures number { result.number ≡ index_table stations }
    ensures unknown { result.unknown ≡ unknown_table stations }
    ensures coordinate { result.coordinate ≡ coordinates stations }
    ensures correction { result.correction ≡ corrections_of stations x.now }
{
    Tables {
        n: network::number_of(stations, Unit::COMPONENTS),
        number: network::numbers_of(stations),
        unknown: network::unknowns_of(stations),
        coordinate: network::coordinates_of(stations),
        correction: residuals::corrections_of(stations, x),
    }
}
