// Sums of products in 64 bits.
ghost use Rattle.std.specs.Prelude.{◌≡◌, ◌+◌, ◌*◌, ◌*ℤ◌};
ghost use Rattle.integers.specs.Sums.{sum};
ghost use Rattle.acceptance.specs.Loops.{Factors};
ghost use Rattle.acceptance.specs.Tests.{at};

// The sum of the products of n entries of a from `row` on and every `stride`th entry of b from `column` on.
pub fn dot(a: &[i64], row: usize, b: &[i64], column: usize, stride: usize, n: usize) -> i64
    requires { Factors a.now row b.now column stride n }
    ensures { result ≡ sum n (λ k. at a.now (row + k) *ℤ at b.now (column + k * stride)) }
{
    let mut sum: i64 = 0;
    for k in 0..n {
        sum += a[row + k] * b[column + k * stride];
    }
    sum
}
