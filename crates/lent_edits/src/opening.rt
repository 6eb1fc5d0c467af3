// The opening of a book on lent bytes.
ghost use Rattle.std.specs.Prelude.{◌≤◌, length};
ghost use Rattle.book.specs.Refusals.{answer_no};
ghost use Rattle.layout.specs.Layout.{book_bytes};
ghost use Rattle.lent_edits.specs.LentEdits.{Opens};

use book::{Book, Refusal};

// Opens a book on the words of a station list, and writes it unless it is refused.
pub fn open(list: &[i64], s: &mut [u8]) -> Result<(), Refusal>
    requires { book_bytes ≤ length s.old }
    ensures { Opens list.now s.old (answer_no result) s.new }
{
    let book = Book::open(list)?;
    layout::write_book(s, book);
    Ok(())
}
