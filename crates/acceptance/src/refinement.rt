// Tests 6 and 7: the residual of the normal equations, r = u − Nx, and Mr.
ghost use Rattle.std.specs.Prelude.{◌≡◌, ◌*◌, ◌^◌, leb, nat_abs, ◌*ℤ◌};
ghost use Rattle.integers.specs.Sums.{sum};
ghost use Rattle.lists.specs.All.{all_below};
ghost use Rattle.network.specs.Units.{most_unknowns};
ghost use Rattle.acceptance.specs.Tests.{at, by_rows, normal_residual};
ghost use Rattle.acceptance.specs.Loops.{ResidualRange, Residuals, RefinementRange};

use super::limits;
use super::products::dot;
use normals::Normals;

// r = u − Nx; 0 beyond the n-th entry.
pub fn normal_residual(
    normal: &[i64],
    right: &[i64; Normals::ROW],
    x: &[i64],
    n: usize,
) -> [i64; Normals::ROW]
    requires { ResidualRange n normal.now right.now x.now }
    ensures { Residuals n (normal_residual n (by_rows most_unknowns normal.now) (at right.now) (at x.now)) result }
{
    let mut out = [0i64; Normals::ROW];
    for i in 0..n {
        let d = dot(normal, i * Normals::ROW, x, 0, 1, n);
        let r = right[i] - d;
        out[i] = r;
    }
    out
}

// Whether the product of M with r is at most 15·2^26 in size in every row.
pub fn refinements_within(m: &[i64], r: &[i64; Normals::ROW], n: usize) -> bool
    requires { RefinementRange n m.now r.now }
    ensures { result ≡ all_below n (λ i. leb (nat_abs (sum n (λ k. by_rows n m.now i k *ℤ at r.now k))) (15 * 2 ^ 26)) }
{
    for i in 0..n {
        let d = dot(m, i * n, r, 0, 1, n);
        if d.unsigned_abs() > limits::REFINEMENT {
            return false;
        }
    }
    true
}
