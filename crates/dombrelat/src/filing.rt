// The C calls on files: a book written, a file tested, the entry in force of two files, a file entered.
ghost use Rattle.std.specs.Prelude.{◌≡◌, ◌≤◌, length};
ghost use Rattle.dombrelat.specs.FileCalls.{LengthSmall, written_word, entered_word, write_call, check_file_call, found_in, given_found, found_call, enter_call};

use super::{BAD_PLACE, NO_BOOK, NO_ROOM};
use files::{EntryFound, FileRefusal};

// The files that an entry in force is in.
const NIGHT: i64 = 1;

const DAY: i64 = 2;

// The bytes of the two words that say where an entry is.
const FOUND_BYTES: usize = 16;

fn written_word(w: Result<usize, FileRefusal>) -> i64
    requires { LengthSmall w }
    ensures { result ≡ written_word w }
{
    match w {
        Ok(n) => n as i64,
        Err(refusal) => i64::from(refusal),
    }
}

fn entered_word(e: Result<(), FileRefusal>) -> i64
    ensures { result ≡ entered_word e }
{
    match e {
        Ok(()) => 0,
        Err(refusal) => i64::from(refusal),
    }
}

// Writes the book's records as a file, by rising place.
#[unsafe(no_mangle)]
pub extern "C" fn dombrelat_write_file(book: &[u8], file: &mut [u8]) -> i64
    ensures value { result ≡ (write_call book.now file.old).answer }
    ensures file_after { file.new ≡ (write_call book.now file.old).bytes }
{
    if !layout::holds_book(book) {
        return NO_BOOK;
    }
    let w = book_files::write_file(book, file);
    written_word(w)
}

// Whether bytes read as a file.
#[unsafe(no_mangle)]
pub extern "C" fn dombrelat_check_file(file: &[u8]) -> i64
    ensures { result ≡ check_file_call file.now }
{
    if files::holds_file(file) { 0 } else { 18 }
}

// Puts the file and the byte where an entry starts.
fn put_found(out: &mut [u8], file: i64, at: usize) -> i64
    requires { 16 ≤ length out.old }
    ensures { (result ≡ (found_in file at out.old).answer) × (out.new ≡ (found_in file at out.old).bytes) }
{
    words::put_word(out, 0, file);
    words::put_word(out, 8, words::to_signed(at as u64));
    0
}

fn give_found(found: Result<EntryFound, FileRefusal>, out: &mut [u8]) -> i64
    requires { 16 ≤ length out.old }
    ensures { (result ≡ (given_found found out.old).answer) × (out.new ≡ (given_found found out.old).bytes) }
{
    match found {
        Ok(EntryFound::InNight(at)) => put_found(out, NIGHT, at),
        Ok(EntryFound::InDay(at)) => put_found(out, DAY, at),
        Err(refusal) => i64::from(refusal),
    }
}

// The entry in force for a place: which file has it, and where.
#[unsafe(no_mangle)]
pub extern "C" fn dombrelat_entry_in_force(
    night: &[u8],
    day: &[u8],
    place: i64,
    found: &mut [u8],
) -> i64
    ensures value { result ≡ (found_call night.now day.now place found.old).answer }
    ensures found_after { found.new ≡ (found_call night.now day.now place found.old).bytes }
{
    if !files::is_place(place) {
        return BAD_PLACE;
    }
    if found.len() < FOUND_BYTES {
        return NO_ROOM;
    }
    let f = files::find(night, day, place);
    give_found(f, found)
}

// Enters a file's entries into the book, each as a call of its own.
#[unsafe(no_mangle)]
pub extern "C" fn dombrelat_enter_file(book: &mut [u8], file: &[u8], answers: &mut [u8]) -> i64
    ensures value { result ≡ (enter_call book.old file.now answers.old).answer }
    ensures book_after { book.new ≡ (enter_call book.old file.now answers.old).book }
    ensures answers_after { answers.new ≡ (enter_call book.old file.now answers.old).answers }
{
    if !layout::holds_book(book) {
        return NO_BOOK;
    }
    let e = book_files::enter_file(book, file, answers);
    entered_word(e)
}
