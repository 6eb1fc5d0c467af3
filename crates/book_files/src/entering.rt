// A file entered into a book: its entries in their order, each as a call of its own.
ghost use Rattle.std.specs.Prelude.{◌≡◌, true, ◌*◌, ◌/◌, ◌≤◌, length};
ghost use Rattle.words.specs.Runs.{put_words};
ghost use Rattle.layout.specs.Bytes.{bytes_fit};
ghost use Rattle.book_files.specs.Entering.{entered_book, entered_answers, enter_answer, book_left, answers_left};

use super::records::call_in;
use files::{FileEntry, FileRefusal};

// The answers stand as words, one for each entry.
fn enter_entries(book: &mut [u8], file: &[u8], answers: &mut [u8])
    requires { (bytes_fit book.old ≡ true) × (8 * (length file.now / 128) ≤ length answers.old) }
    ensures { (book.new ≡ entered_book book.old file.now) × (answers.new ≡ put_words answers.old 0 (entered_answers book.old file.now)) }
{
    let n = file.len() / FileEntry::BYTES;
    for i in 0..n {
        let w = files::entry_words(file, FileEntry::BYTES * i);
        let call = call_in(w);
        let answer = lent_edits::apply(book, call);
        words::put_word(answers, 8 * i, book::call_word(answer));
    }
}

// Enters a file into a book. A refusal enters nothing and writes nothing.
pub fn enter_file(book: &mut [u8], file: &[u8], answers: &mut [u8]) -> Result<(), FileRefusal>
    requires { bytes_fit book.old ≡ true }
    ensures { (result ≡ enter_answer file.now (length answers.old)) × (book.new ≡ book_left result book.old file.now) × (answers.new ≡ answers_left result book.old file.now answers.old) }
{
    if answers.len() / 8 < file.len() / FileEntry::BYTES {
        return Err(FileRefusal::NoRoom);
    }
    if !files::holds_file(file) {
        return Err(FileRefusal::Unreadable);
    }
    enter_entries(book, file, answers);
    Ok(())
}
