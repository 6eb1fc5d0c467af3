// What a record is refused for: 3 to 6 of document 01's table, the lowest first. Ranges are judged before products are formed.
ghost use Rattle.std.specs.Prelude.{◌≡◌, true, ◌&&◌, ◌≤◌};
ghost use Rattle.integers.specs.Tables.{Within};
ghost use Rattle.network.specs.Units.{most_stations, most_components, most_coordinate};
ghost use Rattle.network.specs.Stations.{coordinates_fit};
ghost use Rattle.network.specs.Rules.{in_list, ends_fit, record_ends_fit, observed_fits, height_above_mark_fits, up_in_range, baseline_in_range, height_in_range, position_in_range, in_range, record_matrix_fits, misclosure_fits, record_no_over, record_no, record_fits_over, record_fits};
ghost use Rattle.network.specs.Refusals.{record_answer_no};
ghost use Rattle.network.specs.RecordLaws.{Observed};

use super::records::{is_empty, misclosures_of, observations_of, reduced_up, weight_matrix_of};
use super::stations::{coordinate_fits, coordinates_of};
use super::{Baseline, Level, Network, Position, Record, RecordRefusal, Unit};

// v is the number of a station.
fn in_list(count: usize, v: i64) -> bool
    ensures { result ≡ in_list count v }
{
    words::index_in(v, count) < count
}

// Both are numbers of stations, and not the same.
#[tactic(auto, unfolding(crate::specs::Rules::ends_fit))]
pub fn ends_fit(count: usize, from: i64, to: i64) -> bool
    ensures { result ≡ ends_fit count from to }
{
    in_list(count, from) && in_list(count, to) && from != to
}

// The ends of what a place holds are in the list, and not the same; nothing has none there.
#[tactic(auto, unfolding(crate::specs::Rules::record_ends_fit))]
fn record_ends_fit(count: usize, r: Record) -> bool
    ensures { result ≡ record_ends_fit count r }
{
    match r {
        Record::Empty => false,
        Record::Baseline(b) => ends_fit(count, b.from, b.to),
        Record::Height(h) => ends_fit(count, h.from, h.to),
        Record::Position(p) => in_list(count, p.station),
    }
}

// An observed difference is in range.
fn observed_fits(v: i64) -> bool
    ensures { result ≡ observed_fits v }
{
    v.unsigned_abs() <= Unit::OBSERVED
}

// The height of an antenna above its mark is in range.
fn height_above_mark_fits(h: i64) -> bool
    ensures { result ≡ height_above_mark_fits h }
{
    (0..=Unit::HEIGHT_ABOVE_MARK).contains(&h)
}

// The observed U difference and the antenna heights are in range.
fn up_measured(b: Baseline) -> bool
    ensures { result ≡ (observed_fits b.up && height_above_mark_fits b.hf && height_above_mark_fits b.ht) }
{
    observed_fits(b.up) & height_above_mark_fits(b.hf) & height_above_mark_fits(b.ht)
}

// The same and the reduced U difference, which is formed only where they are in range.
#[tactic(auto, unfolding(crate::specs::Rules::up_in_range))]
fn up_in_range(b: Baseline) -> bool
    ensures { result ≡ up_in_range b }
{
    up_measured(b) && observed_fits(reduced_up(b))
}

#[tactic(auto, unfolding(crate::specs::Rules::baseline_in_range))]
fn baseline_in_range(b: Baseline) -> bool
    ensures { result ≡ baseline_in_range b }
{
    // Stays: `&`, here and for a position: with `&&` the proof did not close at the branch that ends the chain.
    observed_fits(b.east)
        & observed_fits(b.north)
        & up_in_range(b)
        & weights::weights_in_range(weight_matrix_of(Record::Baseline(b)))
}

#[tactic(auto, unfolding(crate::specs::Rules::height_in_range))]
fn height_in_range(h: Level) -> bool
    ensures { result ≡ height_in_range h }
{
    observed_fits(h.up) && (1..=Unit::WEIGHT).contains(&h.weight)
}

#[tactic(auto, unfolding(crate::specs::Rules::position_in_range))]
fn position_in_range(p: Position) -> bool
    ensures { result ≡ position_in_range p }
{
    coordinate_fits(p.east)
        & coordinate_fits(p.north)
        & coordinate_fits(p.up)
        & weights::weights_in_range(weight_matrix_of(Record::Position(p)))
}

#[tactic(auto, unfolding(crate::specs::Rules::in_range))]
fn in_range(r: Record) -> bool
    ensures { result ≡ in_range r }
{
    match r {
        Record::Empty => true,
        Record::Baseline(b) => baseline_in_range(b),
        Record::Height(h) => height_in_range(h),
        Record::Position(p) => position_in_range(p),
    }
}

// The rules on a matrix, of a record that has one.
#[tactic(auto, unfolding(crate::specs::Rules::record_matrix_fits))]
fn record_matrix_fits(r: Record) -> bool
    requires { in_range r ≡ true }
    ensures { result ≡ record_matrix_fits r }
{
    observations_of(r) != 3 || weights::matrix_fits(weight_matrix_of(r))
}

#[tactic(auto, unfolding(crate::specs::Rules::misclosure_fits))]
fn misclosure_fits(coordinate: &[i64; Unit::COMPONENTS], r: Record) -> bool
    requires { Observed coordinate.now r }
    ensures { result ≡ misclosure_fits coordinate.now r }
{
    let [e, n, u] = misclosures_of(coordinate, r);
    (e.unsigned_abs() <= Unit::MISCLOSURE)
        & (n.unsigned_abs() <= Unit::MISCLOSURE)
        & (u.unsigned_abs() <= Unit::MISCLOSURE)
}

// Judges a record over a list of count stations with these provisional coordinates.
#[tactic(auto, unfolding(crate::specs::Rules::record_no_over))]
pub fn judge_record_over(
    count: usize,
    coordinate: &[i64; Unit::COMPONENTS],
    r: Record,
) -> Result<(), RecordRefusal>
    requires { (count ≤ most_stations) × Within most_components most_coordinate coordinate.now }
    ensures { record_answer_no result ≡ record_no_over count coordinate.now r }
{
    if !record_ends_fit(count, r) {
        return Err(RecordRefusal::Ends);
    }
    if !in_range(r) {
        return Err(RecordRefusal::Range);
    }
    if !record_matrix_fits(r) {
        return Err(RecordRefusal::Matrix);
    }
    if !misclosure_fits(coordinate, r) {
        return Err(RecordRefusal::Misclosure);
    }
    Ok(())
}

// Judges a record over the stations of a network.
#[tactic(auto, using(crate::specs::RuleLaws::provisional_within), unfolding(crate::specs::Rules::record_no))]
pub fn judge_record(net: Network, r: Record) -> Result<(), RecordRefusal>
    requires { (net.count ≤ most_stations) × (coordinates_fit net.stations ≡ true) }
    ensures { record_answer_no result ≡ record_no net r }
{
    judge_record_over(net.count, &coordinates_of(net.stations), r)
}

// A place may hold it.
#[tactic(auto, using(crate::specs::Refusals::ok_zero), unfolding(crate::specs::Rules::record_fits_over))]
pub fn record_fits_over(count: usize, coordinate: &[i64; Unit::COMPONENTS], r: Record) -> bool
    requires { (count ≤ most_stations) × Within most_components most_coordinate coordinate.now }
    ensures { result ≡ record_fits_over count coordinate.now r }
{
    is_empty(r) || judge_record_over(count, coordinate, r).is_ok()
}

#[tactic(auto, using(crate::specs::RuleLaws::provisional_within), unfolding(crate::specs::Rules::record_fits))]
pub fn record_fits(net: Network, r: Record) -> bool
    requires { (net.count ≤ most_stations) × (coordinates_fit net.stations ≡ true) }
    ensures { result ≡ record_fits net r }
{
    record_fits_over(net.count, &coordinates_of(net.stations), r)
}
