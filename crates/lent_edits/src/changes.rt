// Edits and undos on bytes that hold a book, in place: refusals in front of one core edit, as in crate book.
ghost use Rattle.std.specs.Prelude.{◌≡◌, true, ◌<◌};
ghost use Rattle.book.specs.Book.{edited, undone, book_says, outcome};
ghost use Rattle.book.specs.Refusals.{answer_no};
ghost use Rattle.book.specs.SoundLaws.{MayPut};
ghost use Rattle.layout.specs.Bytes.{book_of, put_book, bytes_fit};
ghost use Rattle.lent_edits.specs.LentEdits.{bytes_left, Applies};

use book::{Call, Change, Refusal, Reversal};
use layout::JournalChange;
use network::{Network, Record, Unit};

// r at place i, and the edit on the journal.
fn make_edit(s: &mut [u8], net: Network, i: usize, r: Record)
    requires { (bytes_fit s.old ≡ true) × (net ≡ (book_of s.old).network) × MayPut (book_of s.old) i r }
    ensures { s.new ≡ put_book s.old (edited (book_of s.old) i r) }
{
    let next = layout::next_in(s);
    let change = JournalChange {
        slot: next,
        holds: Reversal {
            place: i,
            prior: layout::record_in(s, i),
        },
        next: book::slot_after(next),
        count: book::one_more(layout::journal_count_in(s)),
    };
    layout::put(s, net, i, r, change);
}

// Changes a place.
fn change_place(s: &mut [u8], place: i64, change: Change) -> Result<(), Refusal>
    requires { bytes_fit s.old ≡ true }
    ensures { (answer_no result ≡ book_says (book_of s.old) (Call.Edit place change)) × (s.new ≡ bytes_left s.old (outcome (book_of s.old) (Call.Edit place change))) }
{
    let net = layout::network_in(s);
    let i = words::index_in(place, Unit::PLACES);
    book::judge_edit(net, place, change, layout::record_in(s, i))?;
    make_edit(s, net, i, book::puts_of(change));
    Ok(())
}

// The latest edit comes off the journal, and its place holds again what it held before.
fn restore(s: &mut [u8], count: usize)
    requires { (bytes_fit s.old ≡ true) × (count ≡ (book_of s.old).journal.count) × (0 < count) }
    ensures { s.new ≡ put_book s.old (undone (book_of s.old)) }
{
    let slot = book::slot_before(layout::next_in(s));
    let last = layout::slot_in(s, slot);
    let change = JournalChange {
        slot,
        holds: Reversal {
            place: 0,
            prior: Record::Empty,
        },
        next: slot,
        count: count - 1,
    };
    let net = layout::network_in(s);
    layout::put(s, net, last.place, last.prior, change);
}

// Takes the latest edit back.
fn undo(s: &mut [u8]) -> Result<(), Refusal>
    requires { bytes_fit s.old ≡ true }
    ensures { (answer_no result ≡ book_says (book_of s.old) Call.Undo) × (s.new ≡ bytes_left s.old (outcome (book_of s.old) Call.Undo)) }
{
    let count = layout::journal_count_in(s);
    if count == 0 {
        return Err(Refusal::EmptyHistory);
    }
    restore(s, count);
    Ok(())
}

// The call, unless it is refused. What it leaves holds a book again.
pub fn apply(s: &mut [u8], call: Call) -> Result<(), Refusal>
    requires { bytes_fit s.old ≡ true }
    ensures { Applies s.old call (answer_no result) s.new }
{
    match call {
        Call::Edit(place, change) => change_place(s, place, change),
        Call::Undo => undo(s),
    }
}
