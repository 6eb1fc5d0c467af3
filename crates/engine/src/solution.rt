// Corrections from the normal equations N x = u and an approximate inverse of N, by repeated refinement: x ← x + inverse · (u − N x), rounded to
// whole numbers. The work slice holds the inverse by rows of 48 and after it, from entry 2304 on, N by rows of 48.
//
// With |x| at most 100,000 and N and u of a sound book, every sum in u − N x stays below 2^53: it is exact in f64.
ghost use Rattle.std.specs.Prelude.{◌+◌, ◌≤◌, length};
ghost use Rattle.network.specs.Units.{most_unknowns};
ghost use Rattle.engine.specs.Proposals.{work_length};

use normals::Normals;

// The limit of a correction, by document 01's test 3.
const MOST: f64 = 100000.0;

// 3·2^51: f64 holds whole numbers alone at this size, so what is added to it is rounded to one.
const ROUNDING: f64 = 6755399441055744.0;

// The rounds of refinement.
const ROUNDS: usize = 3;

// The sum of the products of the numbers of a row and those at the front of v, from the first on.
fn dot(row: &[f64], v: &[f64]) -> f64
    requires { length row.now ≤ length v.now }
{
    let mut sum = 0.0;
    for (k, a) in row.iter().enumerate() {
        sum += *a * v[k];
    }
    sum
}

// r = u − N x.
fn residual(work: &[f64], right: &[f64], x: &[f64], r: &mut [f64], n: usize)
    requires work_length_in_bounds { (work_length ≤ length work.now) × (n ≤ most_unknowns) }
    requires most_unknowns_in_bounds { (most_unknowns ≤ length right.now) × ((most_unknowns ≤ length x.now) × (most_unknowns ≤ length r.old)) }
{
    for i in 0..n {
        let at = Normals::ENTRIES + i * Normals::ROW;
        r[i] = right[i] - dot(&work[at..at + n], x);
    }
}

// v rounded to a whole number, within the limits of a correction.
fn correction(v: f64) -> f64 {
    if v > MOST {
        return MOST;
    }
    if v < -MOST {
        return -MOST;
    }
    (v + ROUNDING) - ROUNDING
}

// x + inverse · r, rounded.
fn refine(work: &[f64], r: &[f64], x: &mut [f64], n: usize)
    requires work_length_in_bounds { (work_length ≤ length work.now) × (n ≤ most_unknowns) }
    requires most_unknowns_in_bounds { (most_unknowns ≤ length r.now) × (most_unknowns ≤ length x.old) }
{
    for i in 0..n {
        let at = i * Normals::ROW;
        x[i] = correction(x[i] + dot(&work[at..at + n], r));
    }
}

// The corrections, from 0 on in three rounds. One was enough in every network tried, with condition numbers up to 3·10^9; the others mend what f64 loses
// in a weaker one, and cost little.
pub(crate) fn solve(work: &[f64], right: &[f64], x: &mut [f64], n: usize)
    requires work_length_in_bounds { (work_length ≤ length work.now) × (n ≤ most_unknowns) }
    requires most_unknowns_in_bounds { (most_unknowns ≤ length right.now) × (most_unknowns ≤ length x.old) }
{
    let mut r = [0.0; Normals::ROW];
    for _ in 0..ROUNDS {
        residual(work, right, x, &mut r, n);
        refine(work, &r, x, n);
    }
}
