// The answer: the first test that fails, or acceptance.
ghost use Rattle.std.specs.Prelude.{◌≡◌, ◌&&◌, ◌*◌, ◌≤◌, eqb, length};
ghost use Rattle.network.specs.Units.{most_unknowns};
ghost use Rattle.network.specs.Places.{places_length, places_in};
ghost use Rattle.acceptance.specs.Tests.{at, by_rows};
ghost use Rattle.acceptance.specs.Judge.{refusal_number, refusal_unknown, answer_number, answer_unknown, judge_numbers, judge};
ghost use Rattle.acceptance.specs.JudgeLaws.{BookInRange, NumbersInRange};

use super::inverse::rows_near;
use super::refinement::{normal_residual, refinements_within};
use super::sizes::all_within;
use super::{Refusal, limits};
use network::{Network, Unit};
use normals::Normals;

// Document 01's number of a refusal.
impl From<Refusal> for u64 {
    ghost from_gives = { λ refusal n. n ≡ refusal_number refusal };

    fn from(refusal: Refusal) -> u64 {
        match refusal {
            Refusal::Lengths => 10,
            Refusal::Untied(_) => 11,
            Refusal::Correction => 12,
            Refusal::Inverse => 13,
            Refusal::Defect => 14,
            Refusal::Residual => 15,
            Refusal::Refinement => 16,
            Refusal::TooLarge => 9,
        }
    }
}

// Document 01's number of an answer, 0 where the call is not refused.
pub fn number(answer: Result<(), Refusal>) -> u64
    ensures { result ≡ answer_number answer }
{
    match answer {
        Ok(()) => 0,
        Err(refusal) => u64::from(refusal),
    }
}

// The unknown of a refusal: that of 11, by its number from 1, and 0 in every other.
fn refusal_unknown(refusal: Refusal) -> u64
    ensures { result ≡ refusal_unknown refusal }
{
    match refusal {
        Refusal::Untied(unknown) => unknown,
        _ => 0,
    }
}

// The unknown of refusal 11, by its number from 1; 0 in every other answer.
pub fn unknown(answer: Result<(), Refusal>) -> u64
    ensures { result ≡ answer_unknown answer }
{
    match answer {
        Ok(()) => 0,
        Err(refusal) => refusal_unknown(refusal),
    }
}

// Test 1: whether x has n numbers and M n·n, and the sheet, where one is lent, has room.
fn lengths_fit(x: usize, m: usize, n: usize, room: bool) -> bool
    requires { n ≤ most_unknowns }
    ensures { result ≡ (eqb x n && eqb m (n * n) && room) }
{
    x == n && m == n * n && room
}

// Tests 3 to 7.
fn judge_numbers(
    normal: &[i64],
    right: &[i64; Normals::ROW],
    x: &[i64],
    m: &[i64],
    n: usize,
) -> Result<(), Refusal>
    requires { NumbersInRange n normal.now right.now x.now m.now }
    ensures { result ≡ judge_numbers n (by_rows most_unknowns normal.now) (at right.now) x.now m.now }
{
    if !all_within(x, limits::CORRECTION) {
        return Err(Refusal::Correction);
    }
    if !all_within(m, limits::INVERSE) {
        return Err(Refusal::Inverse);
    }
    if !rows_near(m, normal, n) {
        return Err(Refusal::Defect);
    }
    let r = normal_residual(normal, right, x, n);
    if !all_within(&r[..n], limits::RESIDUAL) {
        return Err(Refusal::Residual);
    }
    if !refinements_within(m, &r, n) {
        return Err(Refusal::Refinement);
    }
    Ok(())
}

// The seven tests of x and M against the book's stations, lent places, N and u; `room`: the sheet, where one is lent, has room.
pub fn accept(
    net: Network,
    places: &[i64],
    normal: &[i64],
    right: &[i64; Normals::ROW],
    x: &[i64],
    m: &[i64],
    room: bool,
) -> Result<(), Refusal>
    requires { (places_length ≤ length places.now) × BookInRange net (places_in places.now) normal.now right.now }
    ensures { result ≡ judge net (places_in places.now) (by_rows most_unknowns normal.now) (at right.now) x.now m.now room }
{
    let stations = net.stations;
    let n = network::number_of(stations, Unit::COMPONENTS);
    if !lengths_fit(x.len(), m.len(), n, room) {
        return Err(Refusal::Lengths);
    }
    if let Some(q) = chains::first_untied(net, places) {
        let first = network::number_of(stations, q) + 1;
        return Err(Refusal::Untied(first as u64));
    }
    judge_numbers(normal, right, x, m, n)
}
