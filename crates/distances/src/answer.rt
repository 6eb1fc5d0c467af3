// The answer to a check distance: 3, then 17, then the check's own refusals of the pair, then whether it agrees.
ghost use Rattle.std.specs.Prelude.{◌≡◌, true};
ghost use Rattle.book.specs.Book.{sound};
ghost use Rattle.layout.specs.Bytes.{book_of, bytes_fit};
ghost use Rattle.distances.specs.Distances.{agreement, distance_number, agreement_number, distance_unknown, agreement_unknown};

use super::{Agreement, CheckDistance, DistanceRefusal, comparison, distance};
use book::Book;

// Whether the distance agrees with the sheet of the pair x, M, which the check must accept, on bytes that hold a book.
pub fn check_distance_in(
    s: &[u8],
    x: &[i64],
    m: &[i64],
    d: CheckDistance,
) -> Result<Agreement, DistanceRefusal>
    requires { bytes_fit s.now ≡ true }
    ensures { result ≡ agreement (book_of s.now) x.now m.now d }
{
    let net = layout::network_in(s);
    if !network::ends_fit(net.count, d.from, d.to) {
        return Err(DistanceRefusal::Ends);
    }
    if !distance::in_range(d) {
        return Err(DistanceRefusal::Range);
    }
    checks::check_in(s, x, m)?;
    if comparison::agrees(net, x, d) {
        return Ok(Agreement::Agrees);
    }
    Ok(Agreement::Disagrees)
}

// The same on a book by value.
pub fn check_distance(
    book: Book,
    x: &[i64],
    m: &[i64],
    d: CheckDistance,
) -> Result<Agreement, DistanceRefusal>
    requires { sound book ≡ true }
    ensures { result ≡ agreement book x.now m.now d }
{
    let s = layout::book_bytes(book);
    check_distance_in(&s, x, m, d)
}

// Document 02's number of a refusal.
impl From<DistanceRefusal> for u64 {
    ghost from_gives = { λ refusal n. n ≡ distance_number refusal };

    fn from(refusal: DistanceRefusal) -> u64 {
        match refusal {
            DistanceRefusal::Ends => 3,
            DistanceRefusal::Range => 17,
            DistanceRefusal::Pair(pair) => u64::from(pair),
        }
    }
}

// The number of an answer: 0 where the distance agrees, −2 where it does not, else that of the refusal.
pub fn number(answer: Result<Agreement, DistanceRefusal>) -> i64
    ensures { result ≡ agreement_number answer }
{
    match answer {
        Ok(Agreement::Agrees) => 0,
        Ok(Agreement::Disagrees) => -2,
        Err(refusal) => u64::from(refusal) as i64,
    }
}

// The unknown of a refusal: that of 11, by its number from 1, and 0 in every other.
fn refusal_unknown(refusal: DistanceRefusal) -> u64
    ensures { result ≡ distance_unknown refusal }
{
    match refusal {
        DistanceRefusal::Pair(pair) => acceptance::unknown(Err(pair)),
        _ => 0,
    }
}

// The same of an answer.
pub fn unknown(answer: Result<Agreement, DistanceRefusal>) -> u64
    ensures { result ≡ agreement_unknown answer }
{
    match answer {
        Ok(_) => 0,
        Err(refusal) => refusal_unknown(refusal),
    }
}
