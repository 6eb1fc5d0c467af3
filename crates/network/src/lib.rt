// Stations, records and their rules: document 01's "Units and stations" and "Records".

#![tactic(auto)]

ghost use Rattle.std.specs.Prelude.{◌≡◌};
ghost use Rattle.network.specs.Refusals.{record_refusal_no};

mod as_words;
mod constructors;
mod opening;
mod places;
mod record_codec;
mod records;
mod rules;
mod stations;
mod unit;

pub use as_words::{kind_word, station_words};
pub use constructors::{baseline_of, height_of, position_of};
pub use opening::{coordinates_fit, network_fits, network_of, open_no, opens};
pub use places::{place_words, record_at};
pub use record_codec::{baseline_in, record_in, record_words};
pub use records::{
    acts_in, from_of, is_empty, is_position, joins_of, misclosures_of, observations_of, to_of,
    weight_matrix_of, weights_of,
};
pub use rules::{ends_fit, judge_record, judge_record_over, record_fits, record_fits_over};
pub use stations::{
    components_of, coordinate_in, coordinates_of, number_of, numbers_of, unknown_in, unknowns_of,
};
pub use unit::Unit;

// What a station's components are: held in all three, unknown in all three, or unknown in U alone.
#[derive(Clone, Copy)]
pub enum Kind {
    Known,
    Free,
    Height,
}

// A station with its provisional coordinates.
#[derive(Clone, Copy)]
pub struct Station {
    pub kind: Kind,
    pub east: i64,
    pub north: i64,
    pub up: i64,
}

// The station list of a book: `count` stations, the rest blank.
// Stays: 32 stations with their count, since the memory is fixed (no heap), and `network_of` and the bytes of a book have this form.
#[derive(Clone, Copy)]
pub struct Network {
    pub count: usize,
    pub stations: [Station; Unit::STATIONS],
}

// A GNSS baseline, antenna to antenna: stations by number, observed differences (to minus from), its symmetric 3×3 weight matrix, and the heights of the antennas above their marks.
// Stays: the weights are fields of their own, here and in Position: document 01 names that form, weights as separate fields and no arrays inside.
#[derive(Clone, Copy)]
pub struct Baseline {
    pub from: i64,
    pub to: i64,
    pub east: i64,
    pub north: i64,
    pub up: i64,
    pub ee: i64,
    pub en: i64,
    pub eu: i64,
    pub nn: i64,
    pub nu: i64,
    pub uu: i64,
    // The heights of the antennas, from first.
    pub hf: i64,
    pub ht: i64,
}

// A levelled height difference.
#[derive(Clone, Copy)]
pub struct Level {
    pub from: i64,
    pub to: i64,
    pub up: i64,
    pub weight: i64,
}

// The position of a mark, with its uncertainty: the station by number, observed coordinates, and the symmetric 3×3 weight matrix.
#[derive(Clone, Copy)]
pub struct Position {
    pub station: i64,
    pub east: i64,
    pub north: i64,
    pub up: i64,
    pub ee: i64,
    pub en: i64,
    pub eu: i64,
    pub nn: i64,
    pub nu: i64,
    pub uu: i64,
}

// What a place holds.
#[derive(Clone, Copy)]
pub enum Record {
    Empty,
    Baseline(Baseline),
    Height(Level),
    Position(Position),
}

// Why a record is refused: 3 to 6 of document 01's table.
#[derive(Clone, Copy)]
pub enum RecordRefusal {
    // 3: an end is not in the list, or the ends are equal.
    Ends,
    // 4: a value or a weight is out of range.
    Range,
    // 5: the weights are no matrix by the rules.
    Matrix,
    // 6: the misclosure is too large.
    Misclosure,
}

impl From<RecordRefusal> for u64 {
    ghost from_gives = { λ refusal n. n ≡ record_refusal_no refusal };

    fn from(refusal: RecordRefusal) -> u64 {
        match refusal {
            RecordRefusal::Ends => 3,
            RecordRefusal::Range => 4,
            RecordRefusal::Matrix => 5,
            RecordRefusal::Misclosure => 6,
        }
    }
}

// Document 01's place: where a record stands in the book.
#[derive(Clone, Copy)]
pub struct Place {
    pub entry: Record,
}
