// The books of the cases. The text of a case ends at the first call that a book refuses.
ghost use Rattle.std.specs.Prelude.{◌≡◌, true, IfOk};
ghost use Rattle.book.specs.Book.{sound};

use book::{Book, Call, Change, Refusal};
use network::{Kind, Record, Unit};

// Stays: a station list is lent as words (`Book::open`, as the C host calls it), so a kind stands in it as its word.
pub(crate) const KNOWN: i64 = 1;

pub(crate) const FREE: i64 = 2;

const HEIGHT: i64 = 3;

// The weight of a baseline or a position between E and N.
const EN: i64 = 20;

pub(crate) fn opened(list: &[i64]) -> Result<Book, Refusal>
    ensures { IfOk result (λ b. sound b ≡ true) }
{
    Book::open(list)
}

// The book after a call.
fn called(mut book: Book, call: Call) -> Result<Book, Refusal>
    requires { sound book ≡ true }
    ensures { IfOk result (λ b. sound b ≡ true) }
{
    book.apply(call)?;
    Ok(book)
}

fn entered(book: Book, place: i64, r: Record) -> Result<Book, Refusal>
    requires { sound book ≡ true }
    ensures { IfOk result (λ b. sound b ≡ true) }
{
    called(book, Call::Edit(place, Change::Enter(r)))
}

pub(crate) fn undone(book: Book) -> Result<Book, Refusal>
    requires { sound book ≡ true }
    ensures { IfOk result (λ b. sound b ≡ true) }
{
    called(book, Call::Undo)
}

// The weights of a baseline or a position.
fn weights() -> [i64; 6] {
    let weight = Unit::WEIGHT_AT_MILLIMETRE;
    [weight, EN, 0, weight, 0, weight]
}

pub(crate) fn level(book: Book, place: i64, from: i64, to: i64, up: i64) -> Result<Book, Refusal>
    requires { sound book ≡ true }
    ensures { IfOk result (λ b. sound b ≡ true) }
{
    entered(
        book,
        place,
        network::height_of(from, to, up, Unit::WEIGHT_AT_MILLIMETRE),
    )
}

pub(crate) fn baseline(
    book: Book,
    place: i64,
    from: i64,
    to: i64,
    observed: [i64; 3],
) -> Result<Book, Refusal>
    requires { sound book ≡ true }
    ensures { IfOk result (λ b. sound b ≡ true) }
{
    entered(
        book,
        place,
        network::baseline_of(from, to, observed, weights(), [0, 0]),
    )
}

pub(crate) fn position(
    book: Book,
    place: i64,
    station: i64,
    observed: [i64; 3],
) -> Result<Book, Refusal>
    requires { sound book ≡ true }
    ensures { IfOk result (λ b. sound b ≡ true) }
{
    entered(
        book,
        place,
        network::position_of(station, observed, weights()),
    )
}

// Document 01's two stations: a known one and one of unknown height, 1,000 apart.
pub(crate) fn two() -> Result<Book, Refusal>
    ensures { IfOk result (λ b. sound b ≡ true) }
{
    opened(&[KNOWN, 0, 0, 100000, HEIGHT, 0, 0, 101000])
}

// The same with a third station.
pub(crate) fn with_third(kind: Kind) -> Result<Book, Refusal>
    ensures { IfOk result (λ b. sound b ≡ true) }
{
    opened(&[
        KNOWN,
        0,
        0,
        100000,
        HEIGHT,
        0,
        0,
        101000,
        network::kind_word(kind),
        0,
        0,
        102000,
    ])
}
