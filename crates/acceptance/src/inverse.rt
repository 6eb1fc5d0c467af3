// Test 5: M against N. "for each row, the sizes of (S·I − MN) add up to at most 2^26".
ghost use Rattle.std.specs.Prelude.{◌≡◌, ◌<◌, ◌^◌, leb, nat_abs};
ghost use Rattle.integers.specs.Sums.{sum_n};
ghost use Rattle.integers.specs.Inverses.{defect};
ghost use Rattle.network.specs.Units.{most_unknowns};
ghost use Rattle.acceptance.specs.Tests.{by_rows, defect_small};
ghost use Rattle.acceptance.specs.Loops.{DefectRange};

use super::limits;
use super::products::dot;
use network::Unit;
use normals::Normals;

// The size of the entry of S.I − MN in row i and column j.
fn defect_size(m: &[i64], normal: &[i64], i: usize, j: usize, n: usize) -> u64
    requires defect_range { DefectRange n m.now normal.now }
    requires inside { (i < n) × (j < n) }
    ensures value { result ≡ nat_abs (defect n (by_rows most_unknowns normal.now) (by_rows n m.now) i j) }
    ensures small { result < 2 ^ 63 }
{
    let d = dot(m, i * n, normal, j, Normals::ROW, n);
    if i == j {
        return (Unit::SCALE - d).unsigned_abs();
    }
    d.unsigned_abs()
}

// Whether the sizes in row i add up to at most 2^26; it stops where they pass it.
fn row_near(m: &[i64], normal: &[i64], i: usize, n: usize) -> bool
    requires defect_range { DefectRange n m.now normal.now }
    requires inside { i < n }
    ensures { result ≡ leb (sum_n n (λ j. nat_abs (defect n (by_rows most_unknowns normal.now) (by_rows n m.now) i j))) (2 ^ 26) }
{
    let mut sum: u64 = 0;
    for j in 0..n {
        sum += defect_size(m, normal, i, j, n);
        if sum > limits::DEFECT {
            return false;
        }
    }
    true
}

// Whether every row of M is near the inverse.
pub fn rows_near(m: &[i64], normal: &[i64], n: usize) -> bool
    requires { DefectRange n m.now normal.now }
    ensures { result ≡ defect_small n (by_rows most_unknowns normal.now) (by_rows n m.now) }
{
    for i in 0..n {
        if !row_near(m, normal, i, n) {
            return false;
        }
    }
    true
}
