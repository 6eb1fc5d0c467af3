// Corrections and adjusted coordinates by component, and the residuals of a record.
ghost use Rattle.std.specs.Prelude.{◌≡◌, ◌+◌, ◌*◌, ◌<◌, ◌≤◌, pos, nat_abs, ◌-ℤ◌, ◌*ℤ◌, get_or};
ghost use Rattle.integers.specs.Tables.{Within};
ghost use Rattle.network.specs.Units.{most_stations, most_components, most_coordinate};
ghost use Rattle.network.specs.Stations.{unknown_count};
ghost use Rattle.residuals.specs.Components.{corrections_of, adjusted_in, adjusted_station_in, residuals_in, Closes};

use network::{Record, Station, Unit};

// The correction of each component, 0 for a held one.
pub fn corrections_of(stations: [Station; Unit::STATIONS], x: &[i64]) -> [i64; Unit::COMPONENTS]
    requires { (1 ≤ unknown_count stations) × Within (unknown_count stations) 100000 x.now }
    ensures { result ≡ corrections_of stations x.now }
{
    let number = network::numbers_of(stations);
    let unknown = network::unknowns_of(stations);
    let mut out = [0i64; Unit::COMPONENTS];
    for q in 0..Unit::COMPONENTS {
        let k = number[q];
        out[q] = unknown[q] * x[k];
    }
    out
}

// The adjusted coordinate of component q: provisional plus correction.
// Stays: a struct of the two tables would be no plainer, since a residual and a misclosure each take one of them.
pub fn adjusted(
    coordinate: &[i64; Unit::COMPONENTS],
    correction: &[i64; Unit::COMPONENTS],
    q: usize,
) -> i64
    requires { (q < most_components) × Within most_components most_coordinate coordinate.now × Within most_components 100000 correction.now }
    ensures { result ≡ adjusted_in coordinate.now correction.now q }
{
    coordinate[q] + correction[q]
}

// The adjusted coordinates E, N, U of station s.
pub fn adjusted_station(
    coordinate: &[i64; Unit::COMPONENTS],
    correction: &[i64; Unit::COMPONENTS],
    s: usize,
) -> [i64; 3]
    requires { (s < most_stations) × Within most_components most_coordinate coordinate.now × Within most_components 100000 correction.now }
    ensures { result ≡ adjusted_station_in coordinate.now correction.now s }
{
    let q = s * 3;
    let x = adjusted(coordinate, correction, q);
    let y = adjusted(coordinate, correction, q + 1);
    let z = adjusted(coordinate, correction, q + 2);
    [x, y, z]
}

// The residual in component a between the stations f and t, with the misclosure l; j is 0 where there is no from end.
fn residual(
    l: i64,
    correction: &[i64; Unit::COMPONENTS],
    t: usize,
    f: usize,
    a: usize,
    j: i64,
) -> i64
    requires { (t < most_stations) × (f < most_stations) × (a < 3) × (nat_abs l ≤ 100000) × (nat_abs j ≤ 1) × Within most_components 100000 correction.now }
    ensures { result ≡ l -ℤ (get_or correction.now (t * 3 + a) (pos 0) -ℤ j *ℤ get_or correction.now (f * 3 + a) (pos 0)) }
{
    let to = t * 3 + a;
    let from = f * 3 + a;
    l - (correction[to] - j * correction[from])
}

// The residuals of a record in E, N, U where it acts; where it does not, its weights are 0 and no line has them.
pub fn residuals_of(
    coordinate: &[i64; Unit::COMPONENTS],
    correction: &[i64; Unit::COMPONENTS],
    r: Record,
) -> [i64; 3]
    requires { Closes coordinate.now correction.now r }
    ensures { result ≡ residuals_in coordinate.now correction.now r }
{
    let l = network::misclosures_of(coordinate, r);
    let t = network::to_of(r);
    let f = network::from_of(r);
    let j = network::joins_of(r);
    let x = residual(l[0], correction, t, f, 0, j);
    let y = residual(l[1], correction, t, f, 1, j);
    let z = residual(l[2], correction, t, f, 2, j);
    [x, y, z]
}
