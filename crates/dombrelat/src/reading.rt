// The C calls that read a book: its unknowns, the size of its sheet, its station list and its records.
ghost use Rattle.std.specs.Prelude.{◌≡◌, ◌≤◌};
ghost use Rattle.dombrelat.specs.Reading.{numbered, number_most, gives, unknowns_call, sheet_bytes_call, stations_call, record_call};

use super::{BAD_PLACE, NO_BOOK, NO_ROOM};
use network::Unit;

// The result of a call that gives a number.
fn numbered_word(number: usize) -> i64
    requires { number ≤ number_most }
    ensures { result ≡ numbered number }
{
    (256 * number) as i64
}

// The words w at the front of the bytes, where they have room.
fn give(number: usize, w: &[i64], out: &mut [u8]) -> i64
    requires { number ≤ number_most }
    ensures { (result ≡ (gives number w.now out.old).answer) × (out.new ≡ (gives number w.now out.old).bytes) }
{
    if out.len() / 8 < w.len() {
        return NO_ROOM;
    }
    words::write_words(out, 0, w);
    numbered_word(number)
}

// The number of the book's unknowns.
#[unsafe(no_mangle)]
pub extern "C" fn dombrelat_unknowns(book: &[u8]) -> i64
    ensures { result ≡ unknowns_call book.now }
{
    if !layout::holds_book(book) {
        return NO_BOOK;
    }
    let net = layout::network_in(book);
    let stations = net.stations;
    let n = network::number_of(stations, Unit::COMPONENTS);
    numbered_word(n)
}

// The bytes that the book's sheet takes.
#[unsafe(no_mangle)]
pub extern "C" fn dombrelat_sheet_bytes(book: &[u8]) -> i64
    ensures { result ≡ sheet_bytes_call book.now }
{
    if !layout::holds_book(book) {
        return NO_BOOK;
    }
    let n = checks::room_in(book);
    numbered_word(8 * n)
}

// The station list that the book was opened on.
#[unsafe(no_mangle)]
pub extern "C" fn dombrelat_stations(book: &[u8], list: &mut [u8]) -> i64
    ensures value { result ≡ (stations_call book.now list.old).answer }
    ensures list_after { list.new ≡ (stations_call book.now list.old).bytes }
{
    if !layout::holds_book(book) {
        return NO_BOOK;
    }
    let net = layout::network_in(book);
    let n = net.count;
    let w = layout::stations_at(book);
    let e = 4 * n;
    give(n, &w[0..e], list)
}

// The words of what a place holds.
#[unsafe(no_mangle)]
pub extern "C" fn dombrelat_record(book: &[u8], place: i64, out: &mut [u8]) -> i64
    ensures value { result ≡ (record_call book.now place out.old).answer }
    ensures out_after { out.new ≡ (record_call book.now place out.old).bytes }
{
    if !layout::holds_book(book) {
        return NO_BOOK;
    }
    let i = words::index_in(place, Unit::PLACES);
    if i >= Unit::PLACES {
        return BAD_PLACE;
    }
    let r = layout::record_in(book, i);
    let w = network::record_words(r);
    give(0, &w, out)
}
