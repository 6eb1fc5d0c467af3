// The book that bytes hold, part by part, for any bytes that are long enough.
ghost use Rattle.std.specs.Prelude.{◌≡◌, ◌+◌, ◌*◌, ◌≤◌, ◌<◌, pos, get_or, length, take, drop};
ghost use Rattle.words.specs.Runs.{words_at};
ghost use Rattle.network.specs.Units.{most_unknowns};
ghost use Rattle.network.specs.Records.{record_at};
ghost use Rattle.network.specs.RecordWords as words;
ghost use Rattle.network.specs.Places.{places_in};
ghost use Rattle.book.specs.Journal.{journal_size, free};
ghost use Rattle.layout.specs.Layout.{count_in, journal_in, stations_start, matrix_start, book_length, book_bytes};
ghost use Rattle.layout.specs.Bytes.{words_of, book_of};

use super::offsets::Layout;
use book::{Journal, Reversal};
use network::{Network, Place, Record, Unit};
use normals::Normals;

// Word k.
pub fn word_in(s: &[u8], k: usize) -> i64
    requires { (book_bytes ≤ length s.now) × (k < book_length) }
    ensures { result ≡ get_or (words_of s.now) k (pos 0) }
{
    words::word_at(s, 8 * k)
}

fn count_in(s: &[u8], k: usize) -> usize
    requires { (book_bytes ≤ length s.now) × (k < book_length) }
    ensures { result ≡ count_in (words_of s.now) k }
{
    words::to_unsigned(word_in(s, k)) as usize
}

// The journal's counters.
pub fn next_in(s: &[u8]) -> usize
    requires { book_bytes ≤ length s.now }
    ensures { result ≡ (book_of s.now).journal.next }
{
    count_in(s, Layout::COUNTS_START)
}

pub fn journal_count_in(s: &[u8]) -> usize
    requires { book_bytes ≤ length s.now }
    ensures { result ≡ (book_of s.now).journal.count }
{
    count_in(s, Layout::COUNTS_START + 1)
}

// N words, the first of them word k.
fn words_in<const N: usize>(s: &[u8], k: usize) -> [i64; N]
    requires { (book_bytes ≤ length s.now) × (k + N ≤ book_length) }
    ensures { result ≡ words_at s.now (8 * k) N }
{
    let mut w = [0i64; N];
    words::read_words(s, 8 * k, &mut w);
    w
}

// The words of the station list.
pub fn stations_at(s: &[u8]) -> [i64; Layout::STATIONS_LENGTH]
    requires { book_bytes ≤ length s.now }
    ensures { result ≡ take 128 (drop stations_start (words_of s.now)) }
{
    words_in(s, Layout::STATIONS_START)
}

pub fn network_in(s: &[u8]) -> Network
    requires { book_bytes ≤ length s.now }
    ensures { result ≡ (book_of s.now).network }
{
    let count = count_in(s, 1);
    let w = stations_at(s);
    let read = network::network_of(&w);
    let stations = read.stations;
    Network { count, stations }
}

// The words of a record, the first of them word k.
pub fn record_at(s: &[u8], k: usize) -> [i64; Record::LENGTH]
    requires { (book_bytes ≤ length s.now) × (k + words.record_length ≤ book_length) }
    ensures { result ≡ words_at s.now (8 * k) words.record_length }
{
    words_in(s, k)
}

fn entry_in(s: &[u8], k: usize) -> Record
    requires { (book_bytes ≤ length s.now) × (k + words.record_length ≤ book_length) }
    ensures { result ≡ words.record_in (words_of s.now) k }
{
    let w = record_at(s, k);
    network::record_in(&w, 0)
}

// The record at a place, counted from 0; an empty one beyond the last.
pub fn record_in(s: &[u8], p: usize) -> Record
    requires { book_bytes ≤ length s.now }
    ensures { result ≡ record_at (book_of s.now).places p }
{
    if p < Unit::PLACES {
        return entry_in(s, Layout::PLACES_START + p * Record::LENGTH);
    }
    Record::Empty
}

// The words of the places, to lend.
pub fn places_in(s: &[u8]) -> [i64; Place::LENGTH]
    requires { book_bytes ≤ length s.now }
    ensures { places_in result ≡ (book_of s.now).places }
{
    words_in(s, Layout::PLACES_START)
}

// What slot k of the journal holds.
pub fn slot_in(s: &[u8], k: usize) -> Reversal
    requires { (book_bytes ≤ length s.now) × (k < journal_size) }
    ensures { result ≡ get_or (book_of s.now).journal.entries k free }
{
    let at = Layout::ENTRIES_START + k * Layout::REVERSAL_LENGTH;
    let place = count_in(s, at);
    let prior = entry_in(s, at + 1);
    Reversal { place, prior }
}

// The journal. Its slots are read into it one by one: no second list of them is made.
pub fn journal_in(s: &[u8]) -> Journal
    requires { book_bytes ≤ length s.now }
    ensures { result ≡ journal_in (words_of s.now) }
{
    let free = Reversal {
        place: 0,
        prior: Record::Empty,
    };
    let next = next_in(s);
    let count = journal_count_in(s);
    let mut journal = Journal {
        entries: [free; Journal::SIZE],
        next,
        count,
    };
    for k in 0..Journal::SIZE {
        journal.entries[k] = slot_in(s, k);
    }
    journal
}

pub fn matrix_in(s: &[u8]) -> [i64; Normals::ENTRIES]
    requires { book_bytes ≤ length s.now }
    ensures { result ≡ (book_of s.now).normals.matrix }
{
    words_in(s, Layout::MATRIX_START)
}

// Row i of N, counted from 0.
pub fn row_in(s: &[u8], i: usize) -> [i64; Normals::ROW]
    requires { (book_bytes ≤ length s.now) × (i < most_unknowns) }
    ensures { result ≡ words_at s.now (8 * (matrix_start + i * most_unknowns)) most_unknowns }
{
    words_in(s, Layout::MATRIX_START + i * Normals::ROW)
}

pub fn right_in(s: &[u8]) -> [i64; Normals::ROW]
    requires { book_bytes ≤ length s.now }
    ensures { result ≡ (book_of s.now).normals.right }
{
    words_in(s, Layout::RIGHT_START)
}
