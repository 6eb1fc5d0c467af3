// The layout of a book in bytes: the only crate that knows where its parts stand (docs/BOOK.md). The words of a record are those of crate network.
//
// `offsets` says where each part stands, `reading` has the book that bytes hold, `laid` the test of the layout, `writing` a book's words put into bytes, `patching` one edit in place.
#![tactic(auto)]

mod laid;
mod offsets;
mod patching;
mod reading;
mod writing;

pub use laid::holds_book;
pub use offsets::Layout;
pub use patching::{JournalChange, put};
pub use reading::{
    journal_count_in, matrix_in, network_in, next_in, places_in, record_in, right_in, row_in,
    slot_in, stations_at,
};
pub use writing::{book_bytes, write_book};
