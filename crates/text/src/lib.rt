// Text: decimal numbers, fields and lines in bytes. Nothing here knows what a line means.
#![tactic(auto)]

mod fields;
mod lines;
mod numbers;
mod writing;

pub use fields::{field_end, find, letter_at, read_rest};
pub use lines::{feed, is_line};
pub use numbers::number_of;
pub use writing::{MOST_DIGITS, NUMBER_ROOM, write_byte, write_natural, write_number, write_text};

// How a chunk went on with a line: whether the line ended in it, how many of its bytes are held, whether there were more than there
// is room for, and where the chunk is to be read next.
// Stays: the other three hold whether or not the line ended, so no enum is plainer than `whole`, of which `fed_line` and `fed_part` speak.
#[derive(Clone, Copy)]
pub struct Fed {
    pub whole: bool,
    pub len: usize,
    pub over: bool,
    pub next: usize,
}
