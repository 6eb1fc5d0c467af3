// The run of an input, line by line: the station list and its opening, what a line asks, the edit that it makes, and its message. Document 01's
// "The night print".
#![tactic(auto)]

mod editing;
mod obeying;
mod opening;
mod reading;

use commands::Command;
pub use obeying::obey;
pub use opening::{LIST_ROOM, is_ended, is_opened, open_list};

// How far a run is; specs/Runs has what it means.
#[derive(Clone, Copy, PartialEq, Eq)]
pub enum Phase {
    // The station list goes on.
    Unopened,
    // There is a book.
    Opened,
    // The opening was refused.
    Ended,
}

// The state of a run beside its book and its lent lists.
#[derive(Clone, Copy)]
pub struct State {
    // the lines so far, and the S lines read
    pub lines: u64,
    pub read: u64,
    // the words at the front of the station list
    pub words: usize,
    pub phase: Phase,
    // how many numbers the latest readable X line gave, and M line, where there was one
    pub corrections: Option<usize>,
    pub matrix: Option<usize>,
}

// What a line asks, and the state with it noted.
#[derive(Clone, Copy)]
struct LineRead {
    state: State,
    command: Command,
}

// How far a run is in a chunk: its state, and how many bytes of the lent ones are printed.
#[derive(Clone, Copy)]
pub struct Reached {
    pub state: State,
    pub printed: usize,
}
