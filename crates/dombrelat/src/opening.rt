// The C call that opens a book.
ghost use Rattle.std.specs.Prelude.{◌≡◌, ◌≤◌, ◌*◌, length};
ghost use Rattle.words.specs.Runs.{words_at};
ghost use Rattle.book.specs.Book.{opening};
ghost use Rattle.layout.specs.Layout.{book_bytes};
ghost use Rattle.dombrelat.specs.Calls.{answered_with, open_call};

use super::{BAD_LIST, NO_BOOK};
use book::call_word;
use layout::Layout;

// The bytes of a station, and of the longest station list.
const STATION_BYTES: usize = 8 * Layout::STATION_LENGTH;

const LIST_BYTES: usize = 8 * Layout::STATIONS_LENGTH;

// The opening on the words of a list, which are read into w.
fn open_list(list: &[u8], w: &mut [i64], book: &mut [u8]) -> i64
    requires { (8 * length w.old ≤ length list.now) × (book_bytes ≤ length book.old) }
    ensures { (result ≡ (answered_with book.old (opening (words_at list.now 0 (length w.old)))).answer) × (book.new ≡ (answered_with book.old (opening (words_at list.now 0 (length w.old)))).bytes) }
{
    words::read_words(list, 0, w);
    call_word(lent_edits::open(w, book))
}

// Opens a book on a station list, 32 bytes a station.
#[unsafe(no_mangle)]
pub extern "C" fn dombrelat_open(list: &[u8], book: &mut [u8]) -> i64
    ensures value { result ≡ (open_call list.now book.old).answer }
    ensures book_after { book.new ≡ (open_call list.now book.old).bytes }
{
    if book.len() < Layout::BOOK_BYTES {
        return NO_BOOK;
    }
    if list.len() % STATION_BYTES != 0 {
        return BAD_LIST;
    }
    if list.len() > LIST_BYTES {
        return BAD_LIST;
    }
    let n = list.len() / 8;
    let mut w = [0; Layout::STATIONS_LENGTH];
    open_list(list, &mut w[0..n], book)
}
