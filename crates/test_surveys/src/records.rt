// A book from text: the stations as numbers after a word, the records line by line as the program `adjust` reads them, but a height difference with its standard deviation.
ghost use Rattle.std.specs.Prelude.{◌≡◌, true, IfOk};
ghost use Rattle.book.specs.Book.{sound};

use super::lines::numbers_of;
use book::{Book, Call, Change, Refusal};
use network::{Record, Unit};

// The book of these stations: kind (1 known, 2 free, 3 height), E, N, U of each, after a word.
fn opened(line: &str) -> Result<Book, Refusal>
    ensures { IfOk result (λ b. sound b ≡ true) }
{
    let mut list = [0i64; 32];
    let n = numbers_of(line, &mut list);
    Book::open(&list[..n])
}

fn baseline(f: &[i64; 12]) -> Record {
    network::baseline_of(
        f[1],
        f[2],
        [f[3], f[4], f[5]],
        [f[6], f[7], f[8], f[9], f[10], f[11]],
        [0, 0],
    )
}

fn position(f: &[i64; 12]) -> Record {
    network::position_of(
        f[1],
        [f[2], f[3], f[4]],
        [f[5], f[6], f[7], f[8], f[9], f[10]],
    )
}

fn level(f: &[i64; 12]) -> Record {
    network::height_of(f[1], f[2], f[3], Unit::weight_of(f[4].unsigned_abs()))
}

// The record of as many numbers; Empty, which no book takes, where no kind has that many.
fn record_of(f: &[i64; 12], count: usize) -> Record {
    match count {
        12 => baseline(f),
        11 => position(f),
        5 => level(f),
        _ => Record::Empty,
    }
}

// The record of a line entered in the book.
fn enter_line(book: &mut Book, line: &str) -> Result<(), Refusal>
    requires { sound book.old ≡ true }
    ensures { sound book.new ≡ true }
{
    let mut f = [0i64; 12];
    let n = numbers_of(line, &mut f);
    let place = f[0];
    book.apply(Call::Edit(place, Change::Enter(record_of(&f, n))))
}

// The book of these stations and records.
pub(crate) fn book_of(stations: &str, records: &str) -> Result<Book, Refusal>
    ensures { IfOk result (λ b. sound b ≡ true) }
{
    let mut b = opened(stations)?;
    for line in records.lines() {
        enter_line(&mut b, line)?;
    }
    Ok(b)
}
