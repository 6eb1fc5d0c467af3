// The C calls on lent bytes.
//
// `opening` has the call that opens a book, `edits` those that edit one, `checking` the calls that check, `proposing` the one that proposes,
// `reading` those that read a book, `filing` those on files, `salvaging` the one on a damaged file.
#![tactic(auto)]

mod checking;
mod edits;
mod filing;
mod opening;
mod proposing;
mod reading;
mod salvaging;

// The refusals that the C calls tell by themselves (docs/REFUSALS.md).
// Stays: numbers, since they are the words that C is given.
const BAD_LIST: i64 = 1;

const BAD_PLACE: i64 = 2;

const NO_ROOM: i64 = 10;

const NO_BOOK: i64 = 25;
