// What 25 tests of bytes: the layout, part by part, and then the book's rules.
ghost use Rattle.std.specs.Prelude.{◌≡◌, ℕ, ◌+◌, ◌*◌, ◌≤◌, ◌<◌, length, get_or, pos};
ghost use Rattle.words.specs.Signed.{eq_z};
ghost use Rattle.words.specs.Runs.{words_at};
ghost use Rattle.lists.specs.All.{all_below};
ghost use Rattle.lists.specs.Same.{same_entries};
ghost use Rattle.network.specs.RecordWords.{record_length};
ghost use Rattle.network.specs.Places.{places_length, places_in};
ghost use Rattle.normals.specs.Formulas.{normals_of};
ghost use Rattle.normals.specs.ByRules.{ByRules};
ghost use Rattle.normals.specs.Same.{same_normals};
ghost use Rattle.book.specs.RulesFit.{rules_fit};
ghost use Rattle.layout.specs.Layout.{journal_in, book_length, book_bytes};
ghost use Rattle.layout.specs.Laid.{record_laid, station_laid};
ghost use Rattle.layout.specs.Bytes.{words_of, book_of, laid_out, bytes_fit};

use super::offsets::Layout;
use super::reading;
use super::writing::station_part;
use book::Journal;
use network::{Network, Record, Unit};
use normals::Normals;

fn record_laid(s: &[u8], k: usize) -> bool
    requires { (book_bytes ≤ length s.now) × (k + record_length ≤ book_length) }
    ensures { result ≡ record_laid (words_of s.now) k }
{
    let w = reading::record_at(s, k);
    let r = network::record_in(&w, 0);
    let v = network::record_words(r);
    w == v
}

// n records, `step` words from one to the next.
fn records_laid(s: &[u8], at: usize, step: usize, n: usize) -> bool
    requires { (book_bytes ≤ length s.now) × (n ≤ 256) × ((p : ℕ) → p < n → at + p * step + record_length ≤ book_length) }
    ensures { result ≡ all_below n (λ p. record_laid (words_of s.now) (at + p * step)) }
{
    for p in 0..n {
        if !record_laid(s, at + p * step) {
            return false;
        }
    }
    true
}

fn stations_laid(s: &[u8]) -> bool
    requires { book_bytes ≤ length s.now }
    ensures { result ≡ all_below 32 (station_laid (words_of s.now)) }
{
    let net = reading::network_in(s);
    let list = reading::stations_at(s);
    for k in 0..Unit::STATIONS {
        let v = station_part(net.count, k, net.stations[k]);
        let a = k * Layout::STATION_LENGTH;
        let laid = &list[a..a + Layout::STATION_LENGTH];
        let right = laid == v.as_slice();
        if !right {
            return false;
        }
    }
    true
}

// Word k is x.
fn word_is(s: &[u8], k: usize, x: i64) -> bool
    requires { (book_bytes ≤ length s.now) × (k < book_length) }
    ensures { result ≡ eq_z (get_or (words_of s.now) k (pos 0)) x }
{
    reading::word_in(s, k) == x
}

fn laid_out(s: &[u8]) -> bool
    requires { book_bytes ≤ length s.now }
    ensures { result ≡ laid_out s.now }
{
    let prior = Layout::ENTRIES_START + 1;
    word_is(s, 0, Layout::NUMBER)
        & stations_laid(s)
        & records_laid(s, Layout::PLACES_START, Record::LENGTH, Unit::PLACES)
        & records_laid(s, prior, Layout::REVERSAL_LENGTH, Journal::SIZE)
}

// Whether the words of s from word k on are w: compared where they stand.
fn same_words(s: &[u8], k: usize, w: &[i64]) -> bool
    requires { (book_bytes ≤ length s.now) × (k + length w.now ≤ book_length) }
    ensures { result ≡ same_entries (length w.now) (words_at s.now (8 * k) (length w.now)) w.now }
{
    for i in 0..w.len() {
        if !word_is(s, k + i, w[i]) {
            return false;
        }
    }
    true
}

// The station list, the records and the journal are by the rules. The journal is read here, so that its room is free again for N.
fn rules_fit(s: &[u8], net: Network, places: &[i64]) -> bool
    requires { (book_bytes ≤ length s.now) × (places_length ≤ length places.now) }
    ensures { result ≡ rules_fit net (places_in places.now) (journal_in (words_of s.now)) }
{
    let journal = reading::journal_in(s);
    book::rules_fit(net, places, journal)
}

// N and u are those of the records, which are by the rules.
fn normals_fit(s: &[u8], net: Network, places: &[i64]) -> bool
    requires { (book_bytes ≤ length s.now) × (places_length ≤ length places.now) × ByRules net (places_in places.now) }
    ensures { result ≡ same_normals (book_of s.now).normals (normals_of net.stations (places_in places.now)) }
{
    let mut n = [0i64; Normals::ENTRIES];
    let mut u = [0i64; Normals::ROW];
    normals::add_records(&mut n, &mut u, net, places);
    same_words(s, Layout::MATRIX_START, &n) & same_words(s, Layout::RIGHT_START, &u)
}

// Bytes long enough for a book pass the rest of what 25 tests.
fn fits(s: &[u8]) -> bool
    requires { book_bytes ≤ length s.now }
    ensures { result ≡ bytes_fit s.now }
{
    if !laid_out(s) {
        return false;
    }
    let network = reading::network_in(s);
    let places = reading::places_in(s);
    if !rules_fit(s, network, &places) {
        return false;
    }
    normals_fit(s, network, &places)
}

// The bytes hold a book: what 25 tests, of any bytes.
pub fn holds_book(s: &[u8]) -> bool
    ensures { result ≡ bytes_fit s.now }
{
    if s.len() < Layout::BOOK_BYTES {
        return false;
    }
    fits(s)
}
