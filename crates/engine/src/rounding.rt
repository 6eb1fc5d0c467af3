// Between whole numbers and f64. The check decides over every proposal, so a number out of range may become any other.
ghost use Rattle.std.specs.Prelude.{◌≤◌, length};
ghost use Rattle.network.specs.Units.{most_unknowns};
ghost use Rattle.normals.specs.Formulas.{matrix_length};

use normals::Normals;

// Numbers below it in size are rounded: 2^36.
const SHIFT: i64 = 68719476736;

const SHIFT_AND_HALF: f64 = 68719476736.5;

// The first number that no u64 holds: 2^64.
const U64_END: f64 = 18446744073709551616.0;

// The unit of M, 2^30, as document 01's S.
const SCALE: f64 = 1073741824.0;

// The whole number nearest to v, for |v| below 2^35. The shift makes every such number positive; a number that is then out of range, and one that is
// no number, gives 0.
fn nearest(v: f64) -> i64 {
    let shifted = v + SHIFT_AND_HALF;
    if shifted > -1.0 {
        if shifted < U64_END {
            let whole = std::num::truncating_f64_to_u64(shifted);
            if whole < 137438953472 {
                return (whole as i64) - SHIFT;
            }
        }
    }
    0
}

// The numbers of a list as f64, to the front of out.
pub(crate) fn load(list: &[i64], out: &mut [f64])
    requires { length list.now ≤ length out.old }
{
    for (i, v) in list.iter().enumerate() {
        out[i] = std::num::nearest_i64_to_f64(*v);
    }
}

// The numbers of a list times `scale`, rounded to nearest, to the front of out.
pub(crate) fn store(list: &[f64], scale: f64, out: &mut [i64])
    requires { length list.now ≤ length out.old }
{
    for (i, v) in list.iter().enumerate() {
        out[i] = nearest(*v * scale);
    }
}

// n rows of n out of rows of 48, in the unit of M and rounded to nearest.
pub(crate) fn store_rows(a: &[f64], m: &mut [i64], n: usize)
    requires { (matrix_length ≤ length a.now) × ((matrix_length ≤ length m.old) × (n ≤ most_unknowns)) }
{
    for i in 0..n {
        let from = i * Normals::ROW;
        let to = i * n;
        store(&a[from..from + n], SCALE, &mut m[to..to + n]);
    }
}
