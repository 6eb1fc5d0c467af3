// Weight matrices, by their six weights alone: document 01's "Records".
#![tactic(auto)]

mod adjugate;
mod rules;

pub use adjugate::{Adjugate, adjugate_of};
pub use rules::{matrix_fits, weights_in_range};

// A symmetric 3×3 weight matrix, with rows and columns E, N, U.
#[derive(Clone, Copy)]
pub struct WeightMatrix {
    pub ee: i64,
    pub en: i64,
    pub eu: i64,
    pub nn: i64,
    pub nu: i64,
    pub uu: i64,
}

impl WeightMatrix {
    // The largest weight on the diagonal; the size of an off-diagonal one.
    pub const WEIGHT: i64 = 10_000;

    pub const OFF_DIAGONAL: u64 = 10_000;
    // How many times the determinant a diagonal entry of the adjugate may be.
    pub const ADJUGATE_FACTOR: i64 = 16;
}
