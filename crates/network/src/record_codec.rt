// A record in 14 words: kind (0 empty, 1 baseline, 2 height difference, 4 position), from or station, to, observed E, N, U, weights EE, EN, EU, NN, NU, UU, from-height, to-height.
// Words of any other kind are read as Empty, and those that a record does not use are not looked at.
ghost use Rattle.std.specs.Prelude.{◌≡◌, ◌+◌, ◌≤◌, length};
ghost use Rattle.network.specs.RecordWords.{record_length, observed_in, weights_in, record_of, record_in, record_words};
ghost use Rattle.network.specs.declared.Record.TheVariants.{Baseline as baseline, Height as height, Position as position};

use super::constructors::{baseline_of, height_of, position_of};
use super::{Baseline, Level, Position, Record};

impl Record {
    // A record's length in words.
    pub const LENGTH: usize = 14;
}

// The observed E, N, U of the record whose first word is at index at.
#[tactic(auto, unfolding(crate::specs::RecordWords::observed_in))]
fn observed_in(w: &[i64], at: usize) -> [i64; 3]
    requires { at + record_length ≤ length w.now }
    ensures { result ≡ observed_in w.now at }
{
    [w[at + 3], w[at + 4], w[at + 5]]
}

// Its weights EE, EN, EU, NN, NU, UU.
#[tactic(auto, unfolding(crate::specs::RecordWords::weights_in))]
fn weights_in(w: &[i64], at: usize) -> [i64; 6]
    requires { at + record_length ≤ length w.now }
    ensures { result ≡ weights_in w.now at }
{
    [
        w[at + 6],
        w[at + 7],
        w[at + 8],
        w[at + 9],
        w[at + 10],
        w[at + 11],
    ]
}

// The baseline whose numbers, from and to first, follow index at.
#[tactic(auto, unfolding(crate::specs::RecordWords::record_of))]
pub fn baseline_in(w: &[i64], at: usize) -> Record
    requires { at + record_length ≤ length w.now }
    ensures { result ≡ record_of 0 w.now at }
{
    let heights = [w[at + 12], w[at + 13]];
    baseline_of(
        w[at + 1],
        w[at + 2],
        observed_in(w, at),
        weights_in(w, at),
        heights,
    )
}

#[tactic(auto, unfolding(crate::specs::RecordWords::record_of))]
fn height_in(w: &[i64], at: usize) -> Record
    requires { at + record_length ≤ length w.now }
    ensures { result ≡ record_of 1 w.now at }
{
    height_of(w[at + 1], w[at + 2], w[at + 5], w[at + 11])
}

#[tactic(auto, unfolding(crate::specs::RecordWords::record_of))]
fn position_in(w: &[i64], at: usize) -> Record
    requires { at + record_length ≤ length w.now }
    ensures { result ≡ record_of 3 w.now at }
{
    position_of(w[at + 1], observed_in(w, at), weights_in(w, at))
}

// The record whose first word is at index at.
#[tactic(auto, unfolding(crate::specs::RecordWords::record_of))]
pub fn record_in(w: &[i64], at: usize) -> Record
    requires { at + record_length ≤ length w.now }
    ensures { result ≡ record_in w.now at }
{
    match words::index_in(w[at], 4) {
        0 => baseline_in(w, at),
        1 => height_in(w, at),
        3 => position_in(w, at),
        _ => Record::Empty,
    }
}

#[tactic(auto, unfolding(crate::specs::RecordWords::record_words))]
fn baseline_words(b: Baseline) -> [i64; Record::LENGTH]
    ensures { result ≡ record_words (baseline b) }
{
    [
        1, b.from, b.to, b.east, b.north, b.up, b.ee, b.en, b.eu, b.nn, b.nu, b.uu, b.hf, b.ht,
    ]
}

#[tactic(auto, unfolding(crate::specs::RecordWords::record_words))]
fn height_words(h: Level) -> [i64; Record::LENGTH]
    ensures { result ≡ record_words (height h) }
{
    [2, h.from, h.to, 0, 0, h.up, 0, 0, 0, 0, 0, h.weight, 0, 0]
}

#[tactic(auto, unfolding(crate::specs::RecordWords::record_words))]
fn position_words(p: Position) -> [i64; Record::LENGTH]
    ensures { result ≡ record_words (position p) }
{
    [
        4, p.station, 0, p.east, p.north, p.up, p.ee, p.en, p.eu, p.nn, p.nu, p.uu, 0, 0,
    ]
}

#[tactic(auto, unfolding(crate::specs::RecordWords::record_words))]
pub fn record_words(r: Record) -> [i64; Record::LENGTH]
    ensures { result ≡ record_words r }
{
    match r {
        Record::Empty => [0; Record::LENGTH],
        Record::Baseline(b) => baseline_words(b),
        Record::Height(h) => height_words(h),
        Record::Position(p) => position_words(p),
    }
}
