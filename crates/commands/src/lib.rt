// Commands: a line of the input to what it asks. Document 01's "The night print".
#![tactic(auto)]

mod reading;

use book::Call;
use network::{Record, Station};
pub use reading::{is_station_line, read_command};

// A line of more bytes is unreadable.
pub const LONGEST_LINE: usize = 50_000;

// What a line asks.
#[derive(Clone, Copy)]
pub enum Command {
    // S: the next station of the list
    Station(Station),
    // H, B or P, with or without R before it: an enter; D: a strike; U: an undo
    Call(Call),
    // X: so many corrections
    Corrections(usize),
    // M: so many entries of the matrix, by rows
    Matrix(usize),
    // Stays: a line that can't be read is a kind of line, with a message of its own, and the theorems of `command_of` name it.
    Unreadable,
}

// What the fields of an H, B or P line say: a place, and the record for it.
#[derive(Clone, Copy)]
struct Entry {
    place: i64,
    of: Record,
}
