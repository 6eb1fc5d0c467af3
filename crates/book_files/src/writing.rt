// A book written as a file: its records by rising place.
ghost use Rattle.std.specs.Prelude.{◌≡◌, true, ◌+◌, ◌*◌, ◌%◌, ◌≤◌, ◌<◌, length};
ghost use Rattle.words.specs.Runs.{put_words};
ghost use Rattle.network.specs.Units.{place_count};
ghost use Rattle.layout.specs.Bytes.{book_of};
ghost use Rattle.layout.specs.Layout.{book_bytes};
ghost use Rattle.files.specs.Files.{file_words};
ghost use Rattle.book_files.specs.Writing.{record_entries, book_entries, all_carried, write_answer, file_left};

use super::records::{entry_of, is_carried};
use files::{FileEntry, FileRefusal};
use network::{Record, Unit};

fn entry_count(p: usize, r: Record) -> usize
    ensures { result ≡ length (record_entries p r) }
{
    if network::is_empty(r) { 0 } else { 1 }
}

fn count_entries(book: &[u8]) -> usize
    requires { book_bytes ≤ length book.now }
    ensures { (result ≡ length (book_entries (book_of book.now))) × (result ≤ place_count) }
{
    let mut n: usize = 0;
    for p in 0..Unit::PLACES {
        let r = layout::record_in(book, p);
        n += entry_count(p, r);
    }
    n
}

fn all_carried(book: &[u8]) -> bool
    requires { book_bytes ≤ length book.now }
    ensures { result ≡ all_carried (book_of book.now) }
{
    for p in 0..Unit::PLACES {
        let r = layout::record_in(book, p);
        if !is_carried(r) {
            return false;
        }
    }
    true
}

// Writes the entry of a record, if it is one, at byte `at`; gives the byte after it.
fn put_entry(file: &mut [u8], at: usize, p: usize, r: Record) -> usize
    requires { (p < place_count) × (at % 128 ≡ 0) × (at + 128 * length (record_entries p r) ≤ length file.old) }
    ensures { (result ≡ at + 128 * length (record_entries p r)) × (file.new ≡ put_words file.old at (file_words at (record_entries p r))) }
{
    if network::is_empty(r) {
        return at;
    }
    let w = entry_of(p, r);
    files::write_entry(file, at, w);
    at + FileEntry::BYTES
}

// The entries of all records, one after the other.
fn write_entries(book: &[u8], file: &mut [u8])
    requires { (book_bytes ≤ length book.now) × (128 * length (book_entries (book_of book.now)) ≤ length file.old) }
    ensures { file.new ≡ put_words file.old 0 (file_words 0 (book_entries (book_of book.now))) }
{
    let mut at: usize = 0;
    for p in 0..Unit::PLACES {
        let r = layout::record_in(book, p);
        at = put_entry(file, at, p, r);
    }
}

// Writes a book at the front of lent bytes. A refusal writes nothing.
pub fn write_file(book: &[u8], file: &mut [u8]) -> Result<usize, FileRefusal>
    requires { book_bytes ≤ length book.now }
    ensures { (result ≡ write_answer (book_of book.now) (length file.old)) × (file.new ≡ file_left result (book_of book.now) file.old) }
{
    let n = count_entries(book);
    if file.len() / FileEntry::BYTES < n {
        return Err(FileRefusal::NoRoom);
    }
    if !all_carried(book) {
        return Err(FileRefusal::NotCarried);
    }
    write_entries(book, file);
    Ok(FileEntry::BYTES * n)
}
