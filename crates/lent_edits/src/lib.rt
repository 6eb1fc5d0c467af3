// Openings, edits and undos on lent bytes, in place: what the C calls and the program both do to the bytes of a book.
//
// `changes` has the edits and undos on bytes that hold a book, `opening` the opening on the words of a station list.
#![tactic(auto)]

mod changes;
mod opening;

pub use changes::apply;
pub use opening::open;
