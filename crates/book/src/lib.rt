// The record book: opening, edits, undo.
#![tactic(auto)]

mod edits;
mod history;
mod refusals;
mod rows;
mod rules;
mod soundness;

pub use history::{one_more, slot_after, slot_before};
use network::{Network, Place, Record, RecordRefusal, Unit};
use normals::Normals;
pub use refusals::{call_word, judge_edit, puts_of};
pub use rows::replay;
pub use soundness::{is_sound, rules_fit};

// What an edit does to its place: it enters a record there, be the place empty or filled, or strikes the record that it holds.
#[derive(Clone, Copy)]
pub enum Change {
    Enter(Record),
    Strike,
}

// A call with its arguments other than the book.
#[derive(Clone, Copy)]
pub enum Call {
    Edit(i64, Change),
    Undo,
}

// What an undo restores: a place, counted from 0, and what it held before.
#[derive(Clone, Copy)]
pub struct Reversal {
    pub place: usize,
    pub prior: Record,
}

// Document 01's history: a ring of the latest edits.
// Stays: a ring in fixed memory (no heap), whose counters stand in the bytes of a book; the definitions `pushed`, `popped` and what 25 tests speak of them.
#[derive(Clone, Copy)]
pub struct Journal {
    pub entries: [Reversal; Journal::SIZE],
    pub next: usize,
    pub count: usize,
}

// Document 01's record book.
#[derive(Clone, Copy)]
pub struct Book {
    pub network: Network,
    pub places: [Place; Unit::PLACES],
    pub journal: Journal,
    pub normals: Normals,
}

// Why a call that opens or edits is refused, by document 01's table.
#[derive(Clone, Copy)]
pub enum Refusal {
    // 1: the station list is not by the rules.
    BadList,
    // 2: the place is not 1 to 256.
    BadPlace,
    // 3 to 6: the record is not by the rules.
    BadRecord(RecordRefusal),
    // 7: a strike of an empty place.
    EmptyPlace,
    // 8: an undo with nothing on the history.
    EmptyHistory,
}
