// The shares of two records term by term, for N and u that are kept elsewhere: who keeps them adds 42 amounts for a record, and reads no other entry. The equations come from the
// station list itself: for two records its tables are not worth their making.
ghost use Rattle.std.specs.Prelude.{◌≡◌, true, ◌*◌, ◌<◌, ◌≤◌, ◌∷◌, []};
ghost use Rattle.network.specs.Stations.{unknown_in, number, coordinates, network_fits};
ghost use Rattle.network.specs.RecordLaws.{Observed};
ghost use Rattle.network.specs.Rules.{record_fits};
ghost use Rattle.normals.specs.Equations.{EquationInRange, ends_of};
ghost use Rattle.normals.specs.Shares.{equation, unknowns_at};
ghost use Rattle.normals.specs.ShareTerms.{pair_term, end_term};

use super::equations::weighted_row;
use super::{Equation, Exchange, Normals, ShareTerm, StationUnknowns};
use network::{Kind, Network, Record, Station, Unit};

// Ends e and f, at their entry of N. Unknowns, coefficients and weights are lent, so that no turn copies an equation.
// Stays: three slices in place of an equation, since a whole one would be asked to have its misclosures in range too.
pub fn pair_term(
    at: &[usize; 6],
    coef: &[i64; 6],
    weight: &[i64; 9],
    e: usize,
    f: usize,
) -> ShareTerm
    requires { (e < 6) × (f < 6) × EquationInRange (ends_of at.now coef.now weight.now) }
    ensures { result ≡ pair_term (ends_of at.now coef.now weight.now) e f }
{
    let entry = at[e] * Normals::ROW + at[f];
    let w = coef[e] * weight[e % 3 * 3 + f % 3];
    let amount = w * coef[f];
    ShareTerm { entry, amount }
}

// End e, at its entry of u.
pub fn end_term(q: Equation, e: usize) -> ShareTerm
    requires { (e < 6) × EquationInRange q }
    ensures { result ≡ end_term q e }
{
    let entry = Normals::ENTRIES + q.at[e];
    let p = weighted_row(&q, e % 3);
    let amount = q.coef[e] * p;
    ShareTerm { entry, amount }
}

// 1 in each of E, N, U that is unknown at a station of the kind, else 0.
fn unknowns_in(k: Kind) -> [usize; 3]
    ensures { result ≡ unknown_in k 0 ∷ unknown_in k 1 ∷ unknown_in k 2 ∷ [] }
{
    [
        network::unknown_in(k, 0),
        network::unknown_in(k, 1),
        network::unknown_in(k, 2),
    ]
}

// How many unknowns stand before station s.
fn unknowns_before(stations: [Station; Unit::STATIONS], s: usize) -> usize
    requires { s ≤ 32 }
    ensures { result ≡ number stations (s * 3) }
{
    let mut n = 0;
    for k in 0..s {
        let x = stations[k];
        let c = unknowns_in(x.kind);
        n = n + c[0] + c[1] + c[2];
    }
    n
}

// The unknowns of station s.
fn unknowns_at(stations: [Station; Unit::STATIONS], s: usize) -> StationUnknowns
    requires { s < 32 }
    ensures { result ≡ unknowns_at stations s }
{
    let n = unknowns_before(stations, s);
    let x = stations[s];
    let c = unknowns_in(x.kind);
    let at = [c[0] * n, c[1] * (n + c[0]), c[2] * (n + c[0] + c[1])];
    let unknown = [c[0] as i64, c[1] as i64, c[2] as i64];
    StationUnknowns { at, unknown }
}

// The equations of a record over the station list, whose provisional coordinates are given.
// Stays: `records::equation_of` is its twin over tables; N from scratch makes the tables once for 256 records, and an edit is faster without them (docs/PERFORMANCE.md).
fn equation_over(
    stations: [Station; Unit::STATIONS],
    coordinate: &[i64; Unit::COMPONENTS],
    r: Record,
) -> Equation
    requires { Observed coordinate.now r × (coordinate.now ≡ coordinates stations) }
    ensures { result ≡ equation stations r }
{
    let f = unknowns_at(stations, network::from_of(r));
    let t = unknowns_at(stations, network::to_of(r));
    let g = network::joins_of(r);
    let at = [f.at[0], f.at[1], f.at[2], t.at[0], t.at[1], t.at[2]];
    let coef = [
        0 - g * f.unknown[0],
        0 - g * f.unknown[1],
        0 - g * f.unknown[2],
        t.unknown[0],
        t.unknown[1],
        t.unknown[2],
    ];
    let weight = network::weights_of(r);
    let misclosure = network::misclosures_of(coordinate, r);
    Equation {
        at,
        coef,
        weight,
        misclosure,
    }
}

// The equations of two records of one network.
pub fn exchange_of(net: Network, old: Record, new: Record) -> Exchange
    requires { (network_fits net ≡ true) × (record_fits net old ≡ true) × (record_fits net new ≡ true) }
    ensures { result ≡ record { off = equation net.stations old; on = equation net.stations new } }
{
    let stations = net.stations;
    let coordinate = network::coordinates_of(stations);
    let off = equation_over(stations, &coordinate, old);
    let on = equation_over(stations, &coordinate, new);
    Exchange { off, on }
}
