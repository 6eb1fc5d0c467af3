// Check distances (document 02, request 1): slope distances that crews tape between marks, held against the sheet's coordinates. None enters a book, so none is
// part of N, T or the degrees of freedom.
#![tactic(auto)]

ghost use Rattle.std.specs.Prelude.{◌≡◌};
ghost use Rattle.distances.specs.declared.DistanceRefusal.TheVariants.{Pair};

mod answer;
mod comparison;
mod distance;

use acceptance::Refusal;
pub use answer::{check_distance, check_distance_in, number, unknown};
use network::Unit;

// A taped slope distance between two stations by their numbers, all lengths in units: the instrument stands over `from`, the target over `to`.
#[derive(Clone, Copy)]
pub struct CheckDistance {
    pub from: i64,
    pub to: i64,
    pub distance: i64,
    // Heights above the marks.
    pub instrument: i64,
    pub target: i64,
    pub tolerance: i64,
}

impl CheckDistance {
    // The greatest distance, height and tolerance.
    pub const DISTANCE: i64 = 1_800_000_000;

    pub const HEIGHT: i64 = Unit::HEIGHT_ABOVE_MARK;

    pub const TOLERANCE: i64 = 100_000;
}

// Why a check distance is refused. specs/Distances gives document 02's number of each case.
#[derive(Clone, Copy)]
pub enum DistanceRefusal {
    // From or to is not in the list, or they are equal.
    Ends,
    // The distance, a height or the tolerance is out of range.
    Range,
    // The check refuses the pair x, M.
    Pair(Refusal),
}

impl From<Refusal> for DistanceRefusal {
    ghost from_gives = { λ pair r. r ≡ Pair pair };

    fn from(pair: Refusal) -> DistanceRefusal {
        DistanceRefusal::Pair(pair)
    }
}

// Whether a check distance agrees with the sheet of an accepted pair.
#[derive(Clone, Copy)]
pub enum Agreement {
    Agrees,
    Disagrees,
}
