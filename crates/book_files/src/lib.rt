// A book as a file, both ways: its records written as entries, and a file's entries entered one after the other. Both work on lent bytes that hold a book.
//
// `records` has one record as an entry and an entry as a call, `writing` a whole book written, `entering` a whole file entered.
#![tactic(auto)]

mod entering;
mod records;
mod writing;

pub use entering::enter_file;
pub use writing::write_file;
