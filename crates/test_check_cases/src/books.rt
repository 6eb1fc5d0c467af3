// The books of the cases, and their edits. A refused edit prints its number and leaves the book.
ghost use Rattle.std.specs.Prelude.{◌≡◌, true, IfOk};
ghost use Rattle.book.specs.Book.{sound};

use super::shown::refused;
use book::{Book, Call, Change, Refusal};
use network::{Kind, Record, Unit};

// The weight of a baseline between E and N.
const EN: i64 = 20;

pub(crate) fn opened(list: &[i64]) -> Result<Book, Refusal>
    ensures { IfOk result (λ b. sound b ≡ true) }
{
    Book::open(list)
}

// The book after a call.
fn called(mut book: Book, call: Call) -> Book
    requires { sound book ≡ true }
    ensures { sound result ≡ true }
{
    if let Err(refusal) = book.apply(call) {
        refused(refusal);
    }
    book
}

// The book after the same call 64 times, as many as the history keeps.
pub(crate) fn called_often(mut book: Book, call: Call) -> Book
    requires { sound book ≡ true }
    ensures { sound result ≡ true }
{
    for _ in 0..64 {
        book = called(book, call);
    }
    book
}

// The book with a record entered.
fn entered(book: Book, place: i64, r: Record) -> Book
    requires { sound book ≡ true }
    ensures { sound result ≡ true }
{
    called(book, Call::Edit(place, Change::Enter(r)))
}

// The book with a height difference entered.
pub(crate) fn level(book: Book, place: i64, from: i64, to: i64, up: i64, weight: i64) -> Book
    requires { sound book ≡ true }
    ensures { sound result ≡ true }
{
    entered(book, place, network::height_of(from, to, up, weight))
}

// The book with a baseline entered.
pub(crate) fn baseline(book: Book, place: i64, from: i64, to: i64, observed: [i64; 3]) -> Book
    requires { sound book ≡ true }
    ensures { sound result ≡ true }
{
    let weight = Unit::WEIGHT_AT_MILLIMETRE;
    let b = network::baseline_of(
        from,
        to,
        observed,
        [weight, EN, 0, weight, 0, weight],
        [0, 0],
    );
    entered(book, place, b)
}

pub(crate) fn undone(book: Book) -> Book
    requires { sound book ≡ true }
    ensures { sound result ≡ true }
{
    called(book, Call::Undo)
}

// Document 01's two stations: a known one and one of unknown height, 1,000 apart.
pub(crate) fn two() -> Result<Book, Refusal>
    ensures { IfOk result (λ b. sound b ≡ true) }
{
    opened(&[1, 0, 0, 100000, 3, 0, 0, 101000])
}

// The same with a third station.
pub(crate) fn with_third(kind: Kind) -> Result<Book, Refusal>
    ensures { IfOk result (λ b. sound b ≡ true) }
{
    let third = network::kind_word(kind);
    opened(&[1, 0, 0, 100000, 3, 0, 0, 101000, third, 0, 0, 102000])
}

// Document 01's network on a book of these stations, with the second difference `up`.
pub(crate) fn printed(book: Book, up: i64) -> Book
    requires { sound book ≡ true }
    ensures { sound result ≡ true }
{
    let b = level(book, 1, 1, 2, 1000, 100);
    level(b, 2, 1, 2, up, 100)
}
