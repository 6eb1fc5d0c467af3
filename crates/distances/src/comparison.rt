// The squared distance between two marks by the sheet's coordinates, and its comparison with a check distance.
ghost use Rattle.std.specs.Prelude.{◌≡◌, true, ◌<◌, ◌≤◌, nat_abs, ◌+ℤ◌};
ghost use Rattle.integers.specs.Tables.{Within};
ghost use Rattle.network.specs.Units.{most_stations, most_components, most_coordinate};
ghost use Rattle.network.specs.Rules.{ends_fit};
ghost use Rattle.residuals.specs.Ranges.{Moved};
ghost use Rattle.distances.specs.Distances.{square, distance_in_range, agrees_at};
ghost use Rattle.distances.specs.Coordinates.{separation_in, squared_distance_in};

use super::{CheckDistance, distance};
use network::{Network, Unit};

// The difference of the adjusted coordinates in component c, station t minus station f, both counted from 0.
fn separation(
    coordinate: &[i64; Unit::COMPONENTS],
    correction: &[i64; Unit::COMPONENTS],
    f: usize,
    t: usize,
    c: usize,
) -> i64
    requires { (f < most_stations) × (t < most_stations) × (c < 3) × Within most_components most_coordinate coordinate.now × Within most_components 100000 correction.now }
    ensures { (result ≡ separation_in coordinate.now correction.now f t c) × (nat_abs result ≤ 1000200000) }
{
    let a = residuals::adjusted(coordinate, correction, t * 3 + c);
    let b = residuals::adjusted(coordinate, correction, f * 3 + c);
    a - b
}

// e² + n² + u².
fn sum_of_squares(e: i64, n: i64, u: i64) -> i64
    requires { (nat_abs e ≤ 1000200000) × (nat_abs n ≤ 1000200000) × (nat_abs u ≤ 1000800000) }
    ensures { result ≡ square e +ℤ square n +ℤ square u }
{
    e * e + n * n + u * u
}

// The squared distance between the stations f and t, the U difference taken plus `rise`.
fn squared_distance(
    coordinate: &[i64; Unit::COMPONENTS],
    correction: &[i64; Unit::COMPONENTS],
    f: usize,
    t: usize,
    rise: i64,
) -> i64
    requires { (f < most_stations) × (t < most_stations) × (nat_abs rise ≤ 600000) × Within most_components most_coordinate coordinate.now × Within most_components 100000 correction.now }
    ensures { result ≡ squared_distance_in coordinate.now correction.now f t rise }
{
    let e = separation(coordinate, correction, f, t, 0);
    let n = separation(coordinate, correction, f, t, 1);
    let u = separation(coordinate, correction, f, t, 2);
    sum_of_squares(e, n, u + rise)
}

// Whether the distance agrees with the coordinates at the corrections x.
pub fn agrees(net: Network, x: &[i64], d: CheckDistance) -> bool
    requires { Moved net x.now × (ends_fit net.count d.from d.to ≡ true) × (distance_in_range d ≡ true) }
    ensures { result ≡ agrees_at net.stations x.now d }
{
    let stations = net.stations;
    let coordinate = network::coordinates_of(stations);
    let correction = residuals::corrections_of(stations, x);
    let f = words::index_in(d.from, Unit::STATIONS);
    let t = words::index_in(d.to, Unit::STATIONS);
    let rise = d.target - d.instrument;
    let squared = squared_distance(&coordinate, &correction, f, t, rise);
    distance::within_tolerance(d.distance, d.tolerance, squared)
}
