// What all records add up to: the counts, T and D.
ghost use Rattle.std.specs.Prelude.{◌≡◌, ◌+◌, ◌*◌, ◌<◌, ◌≤◌, pos, ◌*ℤ◌, get_or, length};
ghost use Rattle.integers.specs.Sums.{sum};
ghost use Rattle.integers.specs.Tables.{Within};
ghost use Rattle.words.specs.Signed.{eq_z};
ghost use Rattle.network.specs.Units.{most_stations, most_components};
ghost use Rattle.network.specs.Places.{places_length, places_in};
ghost use Rattle.network.specs.Records.{from_of, to_of};
ghost use Rattle.normals.specs.ByRules.{ByRules};
ghost use Rattle.residuals.specs.Residuals.{is_record, T, D};
ghost use Rattle.residuals.specs.Ranges.{Solved};
ghost use Rattle.sheet.specs.Sheet.{line_length};
ghost use Rattle.sheet.specs.Totals.{counts_of, freedom, in_adjustment_in, share_din, share_tin, Weighed};

use network::{Network, Record, Unit};

// Of all places: records, and words of their lines.
#[derive(Clone, Copy)]
pub struct Counts {
    pub records: usize,
    pub words: usize,
}

fn is_record(r: Record) -> usize
    ensures { result ≡ is_record r }
{
    usize::from(!network::is_empty(r))
}

// The words of a record's line: the place, and a residual and a verdict for each component that the record observes.
pub fn words_in(r: Record) -> usize
    ensures { result ≡ line_length r }
{
    let n = network::observations_of(r);
    if network::is_empty(r) { 0 } else { 1 + 2 * n }
}

pub fn counts_of(places: &[i64]) -> Counts
    requires { places_length ≤ length places.now }
    ensures { result ≡ counts_of (places_in places.now) }
{
    let mut records = 0;
    let mut words = 0;
    for p in 0..Unit::PLACES {
        let r = network::record_at(places, p);
        records += is_record(r);
        words += words_in(r);
    }
    Counts { records, words }
}

// Whether component q is an unknown.
fn is_unknown(unknown: &[i64; Unit::COMPONENTS], q: usize) -> bool
    requires { q < most_components }
    ensures { result ≡ eq_z (get_or unknown.now q (pos 0)) (pos 1) }
{
    unknown[q] == 1
}

// Whether a record is in the adjustment: an end has an unknown in a component in which the record acts. It is enough to look at U, since every record acts in U and every station with
// an unknown has one there.
fn in_adjustment(unknown: &[i64; Unit::COMPONENTS], r: Record) -> bool
    requires { (from_of r < most_stations) × (to_of r < most_stations) }
    ensures { result ≡ in_adjustment_in unknown.now r }
{
    let from = network::from_of(r) * 3 + 2;
    let to = network::to_of(r) * 3 + 2;
    network::acts_in(r, 2) & (is_unknown(unknown, from) | is_unknown(unknown, to))
}

// What a record adds to D.
fn share_of_d(unknown: &[i64; Unit::COMPONENTS], r: Record) -> usize
    requires { (from_of r < most_stations) × (to_of r < most_stations) }
    ensures { result ≡ share_din unknown.now r }
{
    if in_adjustment(unknown, r) {
        return network::observations_of(r);
    }
    0
}

// The degrees of freedom of so many observed components and n unknowns.
fn freedom_of(observed: usize, n: usize) -> i64
    requires { (observed ≤ 768) × (n ≤ most_components) }
    ensures { result ≡ freedom observed n }
{
    let o = observed as i64;
    let u = n as i64;
    o - u
}

// D, the degrees of freedom of the records in the adjustment.
pub fn d_of(net: Network, places: &[i64]) -> i64
    requires { (places_length ≤ length places.now) × ByRules net (places_in places.now) }
    ensures { result ≡ D net.stations (places_in places.now) }
{
    let stations = net.stations;
    let n = network::number_of(stations, Unit::COMPONENTS);
    let unknown = network::unknowns_of(stations);
    let mut observed = 0;
    for p in 0..Unit::PLACES {
        let r = network::record_at(places, p);
        observed += share_of_d(&unknown, r);
    }
    freedom_of(observed, n)
}

// A residual times the weighted residuals of its row.
fn weighted_row(v: [i64; 3], w: [i64; 9], a: usize) -> i64
    requires { (a < 3) × Within 3 300000 v × Within 9 10000 w }
    ensures { result ≡ sum 3 (λ b. get_or v a (pos 0) *ℤ get_or w (a * 3 + b) (pos 0) *ℤ get_or v b (pos 0)) }
{
    let i = a * 3;
    let x = w[i] * v[0];
    let y = w[i + 1] * v[1];
    let z = w[i + 2] * v[2];
    v[a] * (x + y + z)
}

// The weighted squares of a record's residuals.
fn weighted_squares(v: [i64; 3], w: [i64; 9]) -> i64
    requires { Within 3 300000 v × Within 9 10000 w }
    ensures { result ≡ sum 3 (λ a. sum 3 (λ b. get_or v a (pos 0) *ℤ get_or w (a * 3 + b) (pos 0) *ℤ get_or v b (pos 0))) }
{
    let x = weighted_row(v, w, 0);
    let y = weighted_row(v, w, 1);
    let z = weighted_row(v, w, 2);
    x + y + z
}

// What a record adds to T.
fn share_of_t(
    unknown: &[i64; Unit::COMPONENTS],
    coordinate: &[i64; Unit::COMPONENTS],
    correction: &[i64; Unit::COMPONENTS],
    r: Record,
) -> i64
    requires { Weighed coordinate.now correction.now r }
    ensures { result ≡ share_tin unknown.now coordinate.now correction.now r }
{
    if in_adjustment(unknown, r) {
        let v = residuals::residuals_of(coordinate, correction, r);
        let w = network::weights_of(r);
        return weighted_squares(v, w);
    }
    0
}

// T, the weighted squares of the residuals of the records in the adjustment.
// Stays: `tables_of` would number the unknowns too, which T has no use for; D has none for coordinates and corrections either.
pub fn t_of(net: Network, places: &[i64], x: &[i64]) -> i64
    requires { (places_length ≤ length places.now) × Solved net (places_in places.now) x.now }
    ensures { result ≡ T net.stations (places_in places.now) x.now }
{
    let stations = net.stations;
    let unknown = network::unknowns_of(stations);
    let coordinate = network::coordinates_of(stations);
    let correction = residuals::corrections_of(stations, x);
    let mut t: i64 = 0;
    for p in 0..Unit::PLACES {
        let r = network::record_at(places, p);
        t += share_of_t(&unknown, &coordinate, &correction, r);
    }
    t
}
