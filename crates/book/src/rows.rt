// A run of calls: a book opened on a lent station list, and a lent list of calls in rows of 16 words, each answered in a lent list.
ghost use Rattle.std.specs.Prelude.{◌≡◌, true, ◌+◌, ◌*◌, ◌≤◌, length};
ghost use Rattle.book.specs.Book.{sound};
ghost use Rattle.book.specs.Rows.{row_length, row_of, row_in};
ghost use Rattle.book.specs.Replay.{Answers, Ran, Replayed};
ghost use Rattle.book.specs.Outcomes.{opened_as};

use super::{Book, Call, Change, Refusal, refusals};
use network::Record;

// The words in a row: the call, the place, and a record's.
const ROW_LENGTH: usize = 2 + Record::LENGTH;

// The calls that a row can name.
const ROW_CALLS: usize = 3;

// The call of this number, place and record, if it is one's.
fn row_of(kind: usize, place: i64, entry: Record) -> Option<Call>
    ensures { result ≡ row_of kind place entry }
{
    match kind {
        0 => Some(Call::Edit(place, Change::Enter(entry))),
        1 => Some(Call::Edit(place, Change::Strike)),
        2 => Some(Call::Undo),
        _ => None,
    }
}

// The call that the row whose first word is at index at names, if it names one.
fn row_in(calls: &[i64], at: usize) -> Option<Call>
    requires { at + row_length ≤ length calls.now }
    ensures { result ≡ row_in calls.now at }
{
    let word = calls[at];
    let place = calls[at + 1];
    let kind = words::index_in(word, ROW_CALLS);
    let entry = network::record_in(calls, at + 2);
    row_of(kind, place, entry)
}

// What a row is answered; one that names no call, -1, and the book stays as it is.
fn answer(book: &mut Book, row: Option<Call>) -> i64
    requires { sound book.old ≡ true }
    ensures { Answers book.old row result book.new }
{
    match row {
        Some(call) => refusals::call_word(book.apply(call)),
        None => -1,
    }
}

// The first n rows in turn.
fn run(book: &mut Book, calls: &[i64], answers: &mut [i64], n: usize)
    requires { (sound book.old ≡ true) × (n * row_length ≤ length calls.now) × (n ≤ length answers.old) }
    ensures { Ran book.old calls.now n answers.old answers.new book.new }
{
    for k in 0..n {
        let row = row_in(calls, k * ROW_LENGTH);
        answers[k] = answer(book, row);
    }
}

// As many rows as the calls have whole and the answers have room for; a row that names no call is answered -1.
pub fn replay(list: &[i64], calls: &[i64], answers: &mut [i64]) -> Result<Book, Refusal>
    ensures { Replayed list.now calls.now answers.old answers.new (opened_as result) }
{
    let mut book = Book::open(list)?;
    let n = (calls.len() / ROW_LENGTH).min(answers.len());
    run(&mut book, calls, answers, n);
    Ok(book)
}
