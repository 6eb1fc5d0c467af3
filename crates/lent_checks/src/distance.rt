// A check distance on a book and a lent pair.
ghost use Rattle.std.specs.Prelude.{◌≡◌, true, ◌*◌, ◌≤◌};
ghost use Rattle.distances.specs.Distances.{agreement_unknown};
ghost use Rattle.layout.specs.Bytes.{book_of, bytes_fit};
ghost use Rattle.lent_checks.specs.LentChecks.{answer_most};
ghost use Rattle.lent_checks.specs.LentDistances.{agreement_word, agreement_lent};

use super::checking;
use distances::{Agreement, CheckDistance, DistanceRefusal};
use normals::Normals;

// The answer as a C call gives it.
pub fn agreement_word(answer: Result<Agreement, DistanceRefusal>) -> i64
    requires { 256 * agreement_unknown answer ≤ answer_most }
    ensures { result ≡ agreement_word answer }
{
    let unknown = (256 * distances::unknown(answer)) as i64;
    distances::number(answer) + unknown
}

// Where the pair's sizes fit no book, none of its words is read: test 1 refuses a pair without words too, after 3 and 17.
pub fn check_distance_lent(
    book: &[u8],
    x: &[u8],
    m: &[u8],
    d: CheckDistance,
) -> Result<Agreement, DistanceRefusal>
    requires { bytes_fit book.now ≡ true }
    ensures { (result ≡ agreement_lent (book_of book.now) x.now m.now d) × (256 * agreement_unknown result ≤ answer_most) }
{
    if !checking::sizes_fit(x, m) {
        return distances::check_distance_in(book, &[], &[], d);
    }
    let i = x.len() / 8;
    let j = m.len() / 8;
    let xs = checking::words_of::<{ Normals::ROW }>(x);
    let ms = checking::words_of::<{ Normals::ENTRIES }>(m);
    distances::check_distance_in(book, &xs[..i], &ms[..j], d)
}
