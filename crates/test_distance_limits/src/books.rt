// The books that check distances are asked with.
ghost use Rattle.std.specs.Prelude.{◌≡◌, true, IfOk};
ghost use Rattle.book.specs.Book.{sound};

use super::shown::{ask, print_list};
use book::{Book, Call, Change, Refusal};
use network::{Record, Unit};

// S over the weight of a millimetre, rounded: M's diagonal where one record of that weight ties each unknown to a held station.
pub(crate) const DIAGONAL: i64 = 10737418;

pub(crate) fn opened(list: &[i64]) -> Result<Book, Refusal>
    ensures { IfOk result (λ b. sound b ≡ true) }
{
    print_list(b"open", list);
    Book::open(list)
}

// The book with a record entered.
fn entered(mut book: Book, place: i64, r: Record) -> Result<Book, Refusal>
    requires { sound book ≡ true }
    ensures { IfOk result (λ b. sound b ≡ true) }
{
    book.apply(Call::Edit(place, Change::Enter(r)))?;
    Ok(book)
}

// A baseline from station 1.
pub(crate) fn baseline(book: Book, place: i64, to: i64, observed: [i64; 3]) -> Result<Book, Refusal>
    requires { sound book ≡ true }
    ensures { IfOk result (λ b. sound b ≡ true) }
{
    let [east, north, up] = observed;
    print_list(b"baseline", &[1, to, east, north, up]);
    let weight = Unit::WEIGHT_AT_MILLIMETRE;
    let b = network::baseline_of(1, to, observed, [weight, 0, 0, weight, 0, weight], [0, 0]);
    entered(book, place, b)
}

// A height difference from station 1.
pub(crate) fn height(book: Book, place: i64, to: i64, up: i64) -> Result<Book, Refusal>
    requires { sound book ≡ true }
    ensures { IfOk result (λ b. sound b ≡ true) }
{
    print_list(b"height", &[1, to, up]);
    let h = network::height_of(1, to, up, Unit::WEIGHT_AT_MILLIMETRE);
    entered(book, place, h)
}

// A known station at 0 and two free ones by their provisional coordinates.
pub(crate) fn three(p: [i64; 6]) -> Result<Book, Refusal>
    ensures { IfOk result (λ b. sound b ≡ true) }
{
    opened(&[1, 0, 0, 0, 2, p[0], p[1], p[2], 2, p[3], p[4], p[5]])
}

// The same with a baseline to each free station, which ties it: N is 100 times the unit matrix, and the answer puts each station where its baseline does.
pub(crate) fn tied(p: [i64; 6], observed: [i64; 6]) -> Result<Book, Refusal>
    ensures { IfOk result (λ b. sound b ≡ true) }
{
    let [e, n, u, e_too, n_too, u_too] = observed;
    let first = baseline(three(p)?, 1, 2, [e, n, u])?;
    baseline(first, 2, 3, [e_too, n_too, u_too])
}

// Its M, but for the first entry.
pub(crate) fn inverse(first: i64) -> [i64; 36] {
    let mut m = [0i64; 36];
    for i in 0..6 {
        m[i * 7] = DIAGONAL;
    }
    m[0] = first;
    m
}

// A book of `tied` with its corrections.
#[derive(Drop)]
pub(crate) struct Survey {
    book: Book,
    x: [i64; 6],
    ghost kept: { sound book ≡ true },
}

pub(crate) fn surveyed(p: [i64; 6], observed: [i64; 6], x: [i64; 6]) -> Result<Survey, Refusal> {
    let book = tied(p, observed)?;
    print_list(b"X", &x);
    print_list(b"M", &inverse(DIAGONAL));
    Ok(Survey { book, x })
}

impl Survey {
    // A check distance on it.
    pub(crate) fn ask(&self, row: [i64; 6]) {
        ask(self.book, &self.x, &inverse(DIAGONAL), row);
    }

    // Each of these.
    pub(crate) fn ask_all(&self, rows: &[[i64; 6]]) {
        for row in rows {
            self.ask(*row);
        }
    }
}
