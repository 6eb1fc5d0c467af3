// A candidate: corrections and an inverse worked out in f64 from the normal equations, which the check has yet to judge.
ghost use Rattle.std.specs.Prelude.{◌≤◌, length};
ghost use Rattle.network.specs.Units.{most_unknowns};
ghost use Rattle.normals.specs.Formulas.{matrix_length};
ghost use Rattle.layout.specs.Layout.{book_bytes};
ghost use Rattle.engine.specs.Proposals.{work_length};

use super::inverse::invert;
use super::rounding::{load, store, store_rows};
use super::solution::solve;
use normals::Normals;

// The corrections to the first n places of x, from the u of the book that the bytes hold.
fn corrections(s: &[u8], work: &[f64], n: usize, x: &mut [i64])
    requires book_bytes_in_bounds { book_bytes ≤ length s.now }
    requires work_length_in_bounds { (work_length ≤ length work.now) × (n ≤ most_unknowns) × (most_unknowns ≤ length x.old) }
{
    let right = layout::right_in(s);
    let mut u = [0.0; Normals::ROW];
    load(&right[..n], &mut u);
    let mut found = [0.0; Normals::ROW];
    solve(work, &u, &mut found, n);
    store(&found[..n], 1.0, x);
}

// N of the book that the bytes hold, in both halves of the work slice: one is inverted in place, the other stays for the corrections. It is read row by row, so that no copy of N is held.
fn load_matrix(s: &[u8], work: &mut [f64])
    requires { (book_bytes ≤ length s.now) × (work_length ≤ length work.old) }
{
    for i in 0..Normals::ROW {
        let row = layout::row_in(s, i);
        let at = i * Normals::ROW;
        load(&row, &mut work[at..]);
        load(&row, &mut work[Normals::ENTRIES + at..]);
    }
}

// The corrections to the first n places of x and the inverse to the first n·n of m; false where the book's N is not positive definite in f64.
pub(crate) fn candidate(s: &[u8], n: usize, x: &mut [i64], m: &mut [i64], work: &mut [f64]) -> bool
    requires book_bytes_in_bounds { book_bytes ≤ length s.now }
    requires most_unknowns_in_bounds { (most_unknowns ≤ length x.old) × ((matrix_length ≤ length m.old) × ((work_length ≤ length work.old) × (n ≤ most_unknowns))) }
{
    load_matrix(s, work);
    if !invert(work, n) {
        return false;
    }
    store_rows(work, m, n);
    corrections(s, work, n, x);
    true
}
