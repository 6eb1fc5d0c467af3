// The inverse of a symmetric positive definite matrix, in place, by symmetric Gauss-Jordan steps on the diagonal (the sweep operator). Rows are 48
// entries apart; n rows and columns count. Until `complete`, only the entries on and below the diagonal are read and written.
//
// No contract here speaks of rounding: the check decides over every proposal, so only indices and lengths matter.
ghost use Rattle.std.specs.Prelude.{◌<◌, ◌≤◌, length};
ghost use Rattle.network.specs.Units.{most_unknowns};
ghost use Rattle.normals.specs.Formulas.{matrix_length};

use normals::Normals;

// Entry (i, k) of the symmetric matrix.
fn entry(a: &[f64], i: usize, k: usize) -> f64
    requires { (matrix_length ≤ length a.now) × ((i < most_unknowns) × (k < most_unknowns)) }
{
    if i < k {
        a[k * Normals::ROW + i]
    } else {
        a[i * Normals::ROW + k]
    }
}

fn put_entry(a: &mut [f64], i: usize, k: usize, v: f64)
    requires { (matrix_length ≤ length a.old) × ((i < most_unknowns) × (k < most_unknowns)) }
{
    if i < k {
        a[k * Normals::ROW + i] = v;
    } else {
        a[i * Normals::ROW + k] = v;
    }
}

// Column k of the symmetric matrix into `column`.
fn take_column(a: &[f64], k: usize, n: usize, column: &mut [f64])
    requires { (matrix_length ≤ length a.now) × ((k < most_unknowns) × ((n ≤ most_unknowns) × (most_unknowns ≤ length column.old))) }
{
    for i in 0..n {
        column[i] = entry(a, i, k);
    }
}

// Row i, up to the diagonal, less `factor` times the pivot's column.
fn subtract(a: &mut [f64], i: usize, factor: f64, column: &[f64])
    requires { (matrix_length ≤ length a.old) × ((i < most_unknowns) × (most_unknowns ≤ length column.now)) }
{
    let at = i * Normals::ROW;
    for (j, v) in a[at..at + i + 1].iter_mut().enumerate() {
        *v -= factor * column[j];
    }
}

// Every row less its share of the pivot's row. `q` is one over the pivot.
fn eliminate(a: &mut [f64], column: &[f64], q: f64, n: usize)
    requires { (matrix_length ≤ length a.old) × ((most_unknowns ≤ length column.now) × (n ≤ most_unknowns)) }
{
    for i in 0..n {
        subtract(a, i, column[i] * q, column);
    }
}

// The pivot's own row and column, over the pivot.
fn put_column(a: &mut [f64], column: &[f64], q: f64, k: usize, n: usize)
    requires { (matrix_length ≤ length a.old) × ((most_unknowns ≤ length column.now) × ((k < most_unknowns) × (n ≤ most_unknowns))) }
{
    for i in 0..n {
        put_entry(a, i, k, column[i] * q);
    }
}

// One step; false where the pivot is not positive. The signs are such that the matrix stays symmetric.
fn step(a: &mut [f64], k: usize, n: usize) -> bool
    requires { (matrix_length ≤ length a.old) × ((k < most_unknowns) × (n ≤ most_unknowns)) }
{
    let pivot = a[k * Normals::ROW + k];
    if pivot > 0.0 {
        let q = 1.0 / pivot;
        let mut column = [0.0; Normals::ROW];
        take_column(a, k, n, &mut column);
        eliminate(a, &column, q, n);
        put_column(a, &column, q, k, n);
        a[k * Normals::ROW + k] = -q;
        return true;
    }
    false
}

// All n steps, which leave minus the inverse on and below the diagonal; false where a pivot is not positive.
fn sweep(a: &mut [f64], n: usize) -> bool
    requires { (matrix_length ≤ length a.old) × (n ≤ most_unknowns) }
{
    for k in 0..n {
        if !step(a, k, n) {
            return false;
        }
    }
    true
}

// Row i up to the diagonal with the other sign, and its mirror image above the diagonal.
fn complete_row(a: &mut [f64], i: usize)
    requires { (matrix_length ≤ length a.old) × (i < most_unknowns) }
{
    for j in 0..i + 1 {
        let v = -a[i * Normals::ROW + j];
        a[i * Normals::ROW + j] = v;
        a[j * Normals::ROW + i] = v;
    }
}

fn complete(a: &mut [f64], n: usize)
    requires { (matrix_length ≤ length a.old) × (n ≤ most_unknowns) }
{
    for i in 0..n {
        complete_row(a, i);
    }
}

// The inverse in place; false where a pivot is not positive, as of a singular matrix.
pub(crate) fn invert(a: &mut [f64], n: usize) -> bool
    requires { (matrix_length ≤ length a.old) × (n ≤ most_unknowns) }
{
    if sweep(a, n) {
        complete(a, n);
        return true;
    }
    false
}
