// The engine: a solution proposed in f64, over a lent work slice, and passed through the check before it is given.
//
// `candidate` works a pair out from N and u: the inverse (`inverse`), rounded to whole numbers (`rounding`), and the corrections (`solution`).
// `work_out` has the check judge it; only an accepted pair is given.
#![tactic(auto)]

mod candidate;
mod inverse;
mod rounding;
mod solution;

ghost use Rattle.std.specs.Prelude.{◌≡◌, ◌*◌, ◌<◌, ◌≤◌, true, length, take, Ok};
ghost use Rattle.network.specs.Units.{most_unknowns};
ghost use Rattle.normals.specs.Formulas.{matrix_length};
ghost use Rattle.book.specs.Book.{sound};
ghost use Rattle.layout.specs.Bytes.{book_of, bytes_fit};
ghost use Rattle.checks.specs.Checks.{checked};
ghost use Rattle.engine.specs.Proposals.{Proposed, work_length};

use book::Book;
use network::Unit;
use normals::Normals;

// The answer to a call for a proposal; specs/Proposals says what each case promises.
// Stays: no value goes with Made, since the pair is left in the lent slices, and Nothing is no error: neither Option nor Result would be plainer.
#[derive(Clone, Copy)]
pub enum Proposal {
    // x and M, as they are left in the lent slices, are accepted.
    Made,
    // x and M are as they came.
    Nothing,
}

// The length of work slice that a proposal needs: the inverse and N, each 48 by 48.
pub const WORK: usize = 2 * Normals::ENTRIES;

// The entries of an n×n matrix.
fn square(n: usize) -> usize
    requires { n ≤ most_unknowns }
    ensures { (result ≡ n * n) × (result ≤ matrix_length) }
{
    n * n
}

// Whether the check accepts the first n and n·n numbers of x and m.
fn is_accepted(s: &[u8], n: usize, x: &[i64], m: &[i64]) -> bool
    requires { (bytes_fit s.now ≡ true) × (n ≤ most_unknowns) × (most_unknowns ≤ length x.now) × (matrix_length ≤ length m.now) }
    ensures { result ≡ true → checked (book_of s.now) (take n x.now) (take (n * n) m.now) true ≡ Ok tt }
{
    let entries = square(n);
    checks::check_in(s, &x[..n], &m[..entries]).is_ok()
}

// A candidate worked out beside a work slice of its own, which is gone when the check begins.
fn work_alone(s: &[u8], n: usize, x: &mut [i64], m: &mut [i64]) -> bool
    requires { (bytes_fit s.now ≡ true) × (n ≤ most_unknowns) × (most_unknowns ≤ length x.old) × (matrix_length ≤ length m.old) }
{
    let mut work = [0.0; WORK];
    candidate::candidate(s, n, x, m, &mut work)
}

// Works a pair out in the lent room, and has the check judge its first n and n·n numbers: true where they are accepted. What the room holds is free but for that.
pub fn work_out(s: &[u8], n: usize, x: &mut [i64], m: &mut [i64]) -> bool
    requires { (bytes_fit s.now ≡ true) × (n ≤ most_unknowns) × (most_unknowns ≤ length x.old) × (matrix_length ≤ length m.old) }
    ensures { result ≡ true → checked (book_of s.now) (take n x.new) (take (n * n) m.new) true ≡ Ok tt }
{
    if !work_alone(s, n, x, m) {
        return false;
    }
    is_accepted(s, n, x, m)
}

// A proposal where the lent lengths fit: a pair worked out beside x and m, and copied to them where it is accepted.
fn propose_beside(s: &[u8], n: usize, x: &mut [i64], m: &mut [i64], work: &mut [f64]) -> Proposal
    requires s_value { bytes_fit s.now ≡ true }
    requires n_le_most_unknowns { (n ≤ most_unknowns) × (length x.old ≡ n) × (length m.old ≡ n * n) × (work_length ≤ length work.old) }
    ensures { Proposed result (checked (book_of s.now) x.new m.new true) x.old m.old x.new m.new }
{
    let entries = m.len();
    let mut corrections = [0i64; Normals::ROW];
    let mut inverse = [0i64; Normals::ENTRIES];
    if !candidate::candidate(s, n, &mut corrections, &mut inverse, work) {
        return Proposal::Nothing;
    }
    if !is_accepted(s, n, &corrections, &inverse) {
        return Proposal::Nothing;
    }
    x.copy_from_slice(&corrections[..n]);
    m.copy_from_slice(&inverse[..entries]);
    Proposal::Made
}

// A pair that the check accepts on the book that the bytes hold, in x and m; or no proposal, and x and m as they came. Lent lengths other than n and n·n give no
// proposal, and so does a work slice shorter than WORK. What the work slice holds afterwards is free.
pub fn propose_in(s: &[u8], x: &mut [i64], m: &mut [i64], work: &mut [f64]) -> Proposal
    requires { bytes_fit s.now ≡ true }
    ensures proposed { Proposed result (checked (book_of s.now) x.new m.new true) x.old m.old x.new m.new }
    ensures short { length work.old < work_length → result ≡ Proposal.Nothing }
{
    let network = layout::network_in(s);
    let stations = network.stations;
    let n = network::number_of(stations, Unit::COMPONENTS);
    if x.len() != n {
        return Proposal::Nothing;
    }
    if m.len() != square(n) {
        return Proposal::Nothing;
    }
    if work.len() < WORK {
        return Proposal::Nothing;
    }
    propose_beside(s, n, x, m, work)
}

// The same on a book by value.
pub fn propose(book: Book, x: &mut [i64], m: &mut [i64], work: &mut [f64]) -> Proposal
    requires { sound book ≡ true }
    ensures proposed { Proposed result (checked book x.new m.new true) x.old m.old x.new m.new }
    ensures short { length work.old < work_length → result ≡ Proposal.Nothing }
{
    let s = layout::book_bytes(book);
    propose_in(&s, x, m, work)
}
