// A record's shape, ends, weights and misclosures: what its observation equations are made of.
ghost use Rattle.std.specs.Prelude.{◌≡◌, true, cond, ◌≤◌, ◌<◌, pos, nat_abs};
ghost use Rattle.integers.specs.Tables.{Within};
ghost use Rattle.network.specs.Units.{most_stations, most_components, most_coordinate, most_observed, most_height_above_mark};
ghost use Rattle.network.specs.Records.{observations, acts, is_empty, is_position, from_of, to_of, joins, weight_matrix_of, weights, reduced_up, reduced, misclosure_at, misclosures};
ghost use Rattle.network.specs.Rules.{in_range};
ghost use Rattle.network.specs.RecordLaws.{Observed};

use super::{Baseline, Record, Unit};
use weights::WeightMatrix;

// How many components a record observes.
#[tactic(auto, unfolding(crate::specs::Records::observations))]
pub fn observations_of(r: Record) -> usize
    ensures { result ≡ observations r }
{
    match r {
        Record::Empty => 0,
        Record::Baseline(_) => 3,
        Record::Height(_) => 1,
        Record::Position(_) => 3,
    }
}

// Whether it acts in component c.
#[tactic(auto, unfolding(crate::specs::Records::acts, crate::specs::Records::acts_of))]
pub fn acts_in(r: Record, c: usize) -> bool
    ensures { result ≡ acts c r }
{
    match observations_of(r) {
        0 => false,
        1 => c == 2,
        _ => true,
    }
}

#[tactic(auto, unfolding(crate::specs::Records::is_empty, crate::specs::Records::observations))]
pub fn is_empty(r: Record) -> bool
    ensures { result ≡ is_empty r }
{
    matches!(r, Record::Empty)
}

// Whether it is a position, at which a chain of test 2 may end.
#[tactic(auto, unfolding(crate::specs::Records::is_position))]
pub fn is_position(r: Record) -> bool
    ensures { result ≡ is_position r }
{
    matches!(r, Record::Position(_))
}

// The index of the station at the from end, 32 where the record's number is no station's. A position stands at one station, which is both.
#[tactic(auto, unfolding(crate::specs::Records::from_of))]
pub fn from_of(r: Record) -> usize
    ensures { result ≡ from_of r }
{
    match r {
        Record::Empty => 0,
        Record::Baseline(b) => words::index_in(b.from, Unit::STATIONS),
        Record::Height(h) => words::index_in(h.from, Unit::STATIONS),
        Record::Position(p) => words::index_in(p.station, Unit::STATIONS),
    }
}

// Stays: `to_of` is its twin but for one field; a record of both ends would have to give an empty place ends, and `Level` and `Position` have none in common.
// The same at the to end.
#[tactic(auto, unfolding(crate::specs::Records::to_of))]
pub fn to_of(r: Record) -> usize
    ensures { result ≡ to_of r }
{
    match r {
        Record::Empty => 0,
        Record::Baseline(b) => words::index_in(b.to, Unit::STATIONS),
        Record::Height(h) => words::index_in(h.to, Unit::STATIONS),
        Record::Position(p) => words::index_in(p.station, Unit::STATIONS),
    }
}

// 1 where the record has a from end.
#[tactic(auto, unfolding(crate::specs::Records::joins))]
pub fn joins_of(r: Record) -> i64
    ensures { result ≡ joins r }
{
    match r {
        Record::Empty => 0,
        Record::Baseline(_) => 1,
        Record::Height(_) => 1,
        Record::Position(_) => 0,
    }
}

// The weights as a symmetric 3×3 matrix; of a height difference the one weight at U.
pub fn weight_matrix_of(r: Record) -> WeightMatrix
    ensures { result ≡ weight_matrix_of r }
{
    match r {
        Record::Empty => WeightMatrix {
            ee: 0,
            en: 0,
            eu: 0,
            nn: 0,
            nu: 0,
            uu: 0,
        },
        Record::Baseline(b) => WeightMatrix {
            ee: b.ee,
            en: b.en,
            eu: b.eu,
            nn: b.nn,
            nu: b.nu,
            uu: b.uu,
        },
        Record::Height(h) => WeightMatrix {
            ee: 0,
            en: 0,
            eu: 0,
            nn: 0,
            nu: 0,
            uu: h.weight,
        },
        Record::Position(p) => WeightMatrix {
            ee: p.ee,
            en: p.en,
            eu: p.eu,
            nn: p.nn,
            nu: p.nu,
            uu: p.uu,
        },
    }
}

// The same by rows.
#[tactic(auto, unfolding(crate::specs::Records::weights))]
pub fn weights_of(r: Record) -> [i64; 9]
    ensures { result ≡ weights r }
{
    let w = weight_matrix_of(r);
    [w.ee, w.en, w.eu, w.en, w.nn, w.nu, w.eu, w.nu, w.uu]
}

// The U difference of a baseline from mark to mark.
#[tactic(auto, unfolding(crate::specs::Records::reduced_up))]
pub fn reduced_up(b: Baseline) -> i64
    requires { (nat_abs b.up ≤ most_observed) × (nat_abs b.hf ≤ most_height_above_mark) × (nat_abs b.ht ≤ most_height_above_mark) }
    ensures { result ≡ reduced_up b }
{
    b.up + b.hf - b.ht
}

// The differences from mark to mark in E, N, U; of a position its coordinates.
#[tactic(auto, unfolding(crate::specs::Records::reduced))]
fn reduced_of(r: Record) -> [i64; 3]
    requires { in_range r ≡ true }
    ensures { result ≡ reduced r }
{
    match r {
        Record::Empty => [0, 0, 0],
        Record::Baseline(b) => {
            let up = reduced_up(b);
            [b.east, b.north, up]
        }
        Record::Height(h) => [0, 0, h.up],
        Record::Position(p) => [p.east, p.north, p.up],
    }
}

// Reduced minus the provisional difference in component a between the stations f and t; 0 of a record that does not act there. g is 1 where there is a from end.
fn misclosure(
    coordinate: &[i64; Unit::COMPONENTS],
    f: usize,
    t: usize,
    g: i64,
    a: usize,
    acts: bool,
    reduced: i64,
) -> i64
    requires { (f < most_stations) × (t < most_stations) × (nat_abs g ≤ 1) × (a < 3) × (nat_abs reduced ≤ most_observed) × Within most_components most_coordinate coordinate.now }
    ensures { result ≡ cond acts (misclosure_at coordinate.now f t g a reduced) (pos 0) }
{
    if !acts {
        return 0;
    }
    let i = f * 3 + a;
    let j = t * 3 + a;
    reduced - (coordinate[j] - g * coordinate[i])
}

// Reduced minus the provisional differences, in E, N, U; 0 where the record observes nothing.
pub fn misclosures_of(coordinate: &[i64; Unit::COMPONENTS], r: Record) -> [i64; 3]
    requires { Observed coordinate.now r }
    ensures { result ≡ misclosures coordinate.now r }
{
    let f = from_of(r);
    let t = to_of(r);
    let g = joins_of(r);
    let d = reduced_of(r);
    let e = acts_in(r, 0);
    let n = acts_in(r, 1);
    let u = acts_in(r, 2);
    let x = misclosure(coordinate, f, t, g, 0, e, d[0]);
    let y = misclosure(coordinate, f, t, g, 1, n, d[1]);
    let z = misclosure(coordinate, f, t, g, 2, u, d[2]);
    [x, y, z]
}
