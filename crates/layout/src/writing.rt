// The words of a book put into bytes: each function puts one part where it stands.
ghost use Rattle.std.specs.Prelude.{◌≡◌, true, cond, [], ◌∷◌, ◌+◌, ◌*◌, ◌≤◌, ◌<◌, ltb, pos, length, get_or};
ghost use Rattle.words.specs.Signed.{signed};
ghost use Rattle.words.specs.Runs.{put_words};
ghost use Rattle.network.specs.Records.{record_at};
ghost use Rattle.network.specs.RecordWords.{record_words, record_length};
ghost use Rattle.book.specs.Journal.{journal_size, free};
ghost use Rattle.book.specs.Book.{sound};
ghost use Rattle.words.specs.Concat.{concat_below};
ghost use Rattle.network.specs.StationWords.{station_words};
ghost use Rattle.layout.specs.Layout.{station_part, reversal_words, reversal_length, stations_start, places_start, counts_start, entries_start, matrix_start, right_start, book_length, book_bytes};
ghost use Rattle.layout.specs.Bytes.{book_of, put_book, bytes_fit};

use super::offsets::Layout;
use book::{Book, Journal, Reversal};
use network::{Network, Place, Record, Station, Unit};
use normals::Normals;

// The words of station k, which is x, of a list of `count`: 0 beyond it.
pub fn station_part(count: usize, k: usize, x: Station) -> [i64; Layout::STATION_LENGTH]
    ensures { result ≡ cond (ltb k count) (station_words x) (pos 0 ∷ pos 0 ∷ pos 0 ∷ pos 0 ∷ []) }
{
    if k < count {
        return network::station_words(x);
    }
    [0; Layout::STATION_LENGTH]
}

// Stays: the three that put stations, places and slots are not one generic function. Each is a loop of one line or three, and a closure for a part's words would hold a
// slot's words in an array of their own, where `put_reversal`, which an edit calls too, puts them straight into the bytes.
fn put_stations(s: &mut [u8], net: Network)
    requires { book_bytes ≤ length s.old }
    ensures { s.new ≡ put_words s.old (8 * stations_start) (concat_below 32 (station_part net)) }
{
    for k in 0..Unit::STATIONS {
        let v = station_part(net.count, k, net.stations[k]);
        let at = Layout::STATIONS_START + k * Layout::STATION_LENGTH;
        words::write_words(s, 8 * at, &v);
    }
}

// A record, its first word word k.
pub fn put_record(s: &mut [u8], k: usize, r: Record)
    requires { (book_bytes ≤ length s.old) × (k + record_length ≤ book_length) }
    ensures { s.new ≡ put_words s.old (8 * k) (record_words r) }
{
    let v = network::record_words(r);
    words::write_words(s, 8 * k, &v);
}

fn put_places(s: &mut [u8], places: [Place; Unit::PLACES])
    requires { book_bytes ≤ length s.old }
    ensures { s.new ≡ put_words s.old (8 * places_start) (concat_below 256 (λ p. record_words (record_at places p))) }
{
    for p in 0..Unit::PLACES {
        put_record(
            s,
            Layout::PLACES_START + p * Record::LENGTH,
            places[p].entry,
        );
    }
}

fn count_word(n: usize) -> i64
    ensures { result ≡ signed n }
{
    words::to_signed(n as u64)
}

// What a slot of the journal holds, its first word word k.
pub fn put_reversal(s: &mut [u8], k: usize, u: Reversal)
    requires { (book_bytes ≤ length s.old) × (k + reversal_length ≤ book_length) }
    ensures { s.new ≡ put_words s.old (8 * k) (reversal_words u) }
{
    let place = count_word(u.place);
    words::put_word(s, 8 * k, place);
    put_record(s, k + 1, u.prior);
}

fn put_entries(s: &mut [u8], entries: [Reversal; Journal::SIZE])
    requires { book_bytes ≤ length s.old }
    ensures { s.new ≡ put_words s.old (8 * entries_start) (concat_below journal_size (λ k. reversal_words (get_or entries k free))) }
{
    for k in 0..Journal::SIZE {
        put_reversal(
            s,
            Layout::ENTRIES_START + k * Layout::REVERSAL_LENGTH,
            entries[k],
        );
    }
}

// Two words, the first of them word k.
fn put_pair(s: &mut [u8], k: usize, a: i64, b: i64)
    requires { (book_bytes ≤ length s.old) × (k + 2 ≤ book_length) }
    ensures { s.new ≡ put_words s.old (8 * k) (a ∷ b ∷ []) }
{
    words::put_word(s, 8 * k, a);
    words::put_word(s, 8 * k + 8, b);
}

// The journal's counters.
pub fn put_counts(s: &mut [u8], next: usize, count: usize)
    requires { book_bytes ≤ length s.old }
    ensures { s.new ≡ put_words s.old (8 * counts_start) (signed next ∷ signed count ∷ []) }
{
    let n = count_word(next);
    let h = count_word(count);
    put_pair(s, Layout::COUNTS_START, n, h);
}

// N and u.
pub fn put_normals(s: &mut [u8], matrix: &[i64; Normals::ENTRIES], right: &[i64; Normals::ROW])
    requires { (book_bytes ≤ length s.old) × (length matrix.now ≡ 2304) × (length right.now ≡ 48) }
    ensures { s.new ≡ put_words (put_words s.old (8 * matrix_start) matrix.now) (8 * right_start) right.now }
{
    words::write_words(s, 8 * Layout::MATRIX_START, matrix);
    words::write_words(s, 8 * Layout::RIGHT_START, right);
}

// A book at the start of bytes.
pub fn write_book(s: &mut [u8], book: Book)
    requires { book_bytes ≤ length s.old }
    ensures { s.new ≡ put_book s.old book }
{
    let count = count_word(book.network.count);
    put_pair(s, 0, Layout::NUMBER, count);
    put_stations(s, book.network);
    put_places(s, book.places);
    put_counts(s, book.journal.next, book.journal.count);
    put_entries(s, book.journal.entries);
    put_normals(s, &book.normals.matrix, &book.normals.right);
}

// The bytes of a sound book by value, to lend.
pub fn book_bytes(book: Book) -> [u8; Layout::BOOK_BYTES]
    requires { sound book ≡ true }
    ensures { (bytes_fit result ≡ true) × (book_of result ≡ book) }
{
    let mut s = [0u8; Layout::BOOK_BYTES];
    write_book(&mut s, book);
    s
}
