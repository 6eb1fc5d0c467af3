// What a weight matrix is refused for: ranges are judged before products are formed.
ghost use Rattle.std.specs.Prelude.{◌≡◌};
ghost use Rattle.weights.specs.Rules.{weight_fits, off_diagonal_fits, weights_in_range, minors_positive, adjugate_fits, matrix_fits};
ghost use Rattle.weights.specs.Ranges.{SmallWeights};

use super::WeightMatrix;
use super::adjugate::{adjugate_of, determinant_of, minor};

fn weight_fits(v: i64) -> bool
    ensures { result ≡ weight_fits v }
{
    (1..=WeightMatrix::WEIGHT).contains(&v)
}

fn off_diagonal_fits(v: i64) -> bool
    ensures { result ≡ off_diagonal_fits v }
{
    v.unsigned_abs() <= WeightMatrix::OFF_DIAGONAL
}

pub fn weights_in_range(w: WeightMatrix) -> bool
    ensures { result ≡ weights_in_range w }
{
    weight_fits(w.ee)
        & weight_fits(w.nn)
        & weight_fits(w.uu)
        & off_diagonal_fits(w.en)
        & off_diagonal_fits(w.eu)
        & off_diagonal_fits(w.nu)
}

fn minors_positive(w: WeightMatrix) -> bool
    requires { SmallWeights w }
    ensures { result ≡ minors_positive w }
{
    let m = minor(w.ee, w.nn, w.en, w.en);
    let d = determinant_of(w);
    (0 < w.ee) & (0 < m) & (0 < d)
}

// Each diagonal entry of the adjugate is at most 16 times the determinant.
fn adjugate_fits(w: WeightMatrix) -> bool
    requires { SmallWeights w }
    ensures { result ≡ adjugate_fits w }
{
    let a = adjugate_of(w);
    let most = WeightMatrix::ADJUGATE_FACTOR * a.determinant;
    (a.east <= most) & (a.north <= most) & (a.up <= most)
}

// Stays: that the weights are small is asked of a plain matrix, here and below; a type for such matrices would ask other crates to make one.
pub fn matrix_fits(w: WeightMatrix) -> bool
    requires { SmallWeights w }
    ensures { result ≡ matrix_fits w }
{
    minors_positive(w) & adjugate_fits(w)
}
