// The unit of lengths, 0.01 mm, with what document 01 gives in it: the scale of weights, and the limits of stations and records.
ghost use Rattle.std.specs.Prelude.{◌≡◌, pos};
ghost use Rattle.network.specs.Units.{weight_of};

use weights::WeightMatrix;

#[derive(Clone, Copy)]
pub struct Unit {}

impl Unit {
    // Units in a millimetre.
    pub const MILLIMETRE: u64 = 100;
    // The standard deviation that weight 1 means: 10 mm, in units.
    pub const DEVIATION_AT_WEIGHT_ONE: u64 = 1_000;
    // The weight of a standard deviation of 1 mm.
    pub const WEIGHT_AT_MILLIMETRE: i64 = 100;

    // Stations in a list, and their components E, N, U.
    pub const STATIONS: usize = 32;

    pub const COMPONENTS: usize = 96;
    // Unknowns of a list.
    pub const UNKNOWNS: usize = 48;
    // Places for records.
    pub const PLACES: usize = 256;

    // The size of a coordinate, provisional or of a position; of an observed component and of the reduced U difference, of a misclosure.
    pub const COORDINATE: u64 = 500_000_000;

    pub const OBSERVED: u64 = 1_000_000_000;

    pub const MISCLOSURE: u64 = 100_000;
    // The height of an instrument, a target or an antenna above its mark.
    pub const HEIGHT_ABOVE_MARK: i64 = 300_000;
    // The largest weight; the size of an off-diagonal one.
    pub const WEIGHT: i64 = WeightMatrix::WEIGHT;

    pub const OFF_DIAGONAL: u64 = WeightMatrix::OFF_DIAGONAL;
    // How many times the determinant a diagonal entry of the adjugate may be.
    pub const ADJUGATE_FACTOR: i64 = WeightMatrix::ADJUGATE_FACTOR;

    // S of document 01, the scale of M and of the variances: 2^30.
    pub const SCALE: i64 = 1_073_741_824;

    // The weight of a standard deviation in units: the whole number nearest to 1,000² over its square. 0, which no record takes, of 0 and of more than 14.14 mm.
    pub fn weight_of(deviation: u64) -> i64
        ensures { result ≡ pos (weight_of deviation) }
    {
        let one = Unit::DEVIATION_AT_WEIGHT_ONE;
        if deviation == 0 {
            return 0;
        }
        if deviation > 2 * one {
            return 0;
        }
        let square = deviation * deviation;
        ((2 * one * one + square) / (2 * square)) as i64
    }
}
