// Checking a solution against a book: document 01's check, without a sheet and with one.
#![tactic(auto)]

ghost use Rattle.std.specs.Prelude.{◌≡◌, true, ◌≤◌, leb, length};
ghost use Rattle.network.specs.Places.{places_length, places_in};
ghost use Rattle.book.specs.Book.{sound};
ghost use Rattle.layout.specs.Bytes.{book_of, bytes_fit};
ghost use Rattle.sheet.specs.Sheet.{room};
ghost use Rattle.checks.specs.Checks.{checked, has_room, sheet_after};

use acceptance::Refusal;
use book::Book;
use network::Network;

// The seven tests on bytes that hold a book, whose stations and places are read already; N and u are read here, so that no more than the tests holds them.
fn judge_in(
    s: &[u8],
    net: Network,
    places: &[i64],
    x: &[i64],
    m: &[i64],
    room: bool,
) -> Result<(), Refusal>
    requires { (bytes_fit s.now ≡ true) × (places_length ≤ length places.now) × (net ≡ (book_of s.now).network) × (places_in places.now ≡ (book_of s.now).places) }
    ensures { result ≡ checked (book_of s.now) x.now m.now room }
{
    let normal = layout::matrix_in(s);
    let right = layout::right_in(s);
    acceptance::accept(net, places, &normal, &right, x, m, room)
}

// The answer to a pair (x, M) where no sheet is lent, on bytes that hold a book.
pub fn check_in(s: &[u8], x: &[i64], m: &[i64]) -> Result<(), Refusal>
    requires { bytes_fit s.now ≡ true }
    ensures { result ≡ checked (book_of s.now) x.now m.now true }
{
    let net = layout::network_in(s);
    let places = layout::places_in(s);
    judge_in(s, net, &places, x, m, true)
}

// The same on a book by value.
pub fn check(book: Book, x: &[i64], m: &[i64]) -> Result<(), Refusal>
    requires { sound book ≡ true }
    ensures { result ≡ checked book x.now m.now true }
{
    let s = layout::book_bytes(book);
    check_in(&s, x, m)
}

// The words that the sheet of the book takes, on bytes that hold it.
pub fn room_in(s: &[u8]) -> usize
    requires { bytes_fit s.now ≡ true }
    ensures { result ≡ room (book_of s.now).network (book_of s.now).places }
{
    let net = layout::network_in(s);
    let places = layout::places_in(s);
    sheet::room_of(net, &places)
}

// Whether a sheet of `long` words has room for `words`.
fn has_room(words: usize, long: usize) -> bool
    ensures { result ≡ leb words long }
{
    words <= long
}

// The answer, and on acceptance the sheet at the front of the lent words, on bytes that hold a book. A refusal leaves every word.
pub fn check_sheet_in(s: &[u8], x: &[i64], m: &[i64], sheet: &mut [i64]) -> Result<(), Refusal>
    requires { bytes_fit s.now ≡ true }
    ensures answer { result ≡ checked (book_of s.now) x.now m.now (has_room (book_of s.now) sheet.old) }
    ensures words { sheet.new ≡ sheet_after (book_of s.now) x.now m.now sheet.old }
{
    let net = layout::network_in(s);
    let places = layout::places_in(s);
    let room = has_room(sheet::room_of(net, &places), sheet.len());
    judge_in(s, net, &places, x, m, room)?;
    sheet::write_sheet(net, &places, x, m, sheet);
    Ok(())
}

// The same on a book by value.
pub fn check_sheet(book: Book, x: &[i64], m: &[i64], sheet: &mut [i64]) -> Result<(), Refusal>
    requires { sound book ≡ true }
    ensures answer { result ≡ checked book x.now m.now (has_room book sheet.old) }
    ensures words { sheet.new ≡ sheet_after book x.now m.now sheet.old }
{
    let s = layout::book_bytes(book);
    check_sheet_in(&s, x, m, sheet)
}
