// The run of an input, chunk by chunk, and what its end prints.
#![tactic(auto)]

mod chunks;
mod ending;

pub use chunks::{begin, take_chunk};
pub use ending::finish;
use input_lines::State;

// What a caller lends a run: room for the line that goes on, the bytes of a book, the words of its stations, corrections and a matrix.
#[derive(Drop)]
pub struct Rooms<'a> {
    pub line: &'a mut [u8],
    pub book: &'a mut [u8],
    pub list: &'a mut [i64],
    pub x: &'a mut [i64],
    pub m: &'a mut [i64],
}

// A run between two chunks of its input: its state, how many bytes are held of the line that goes on and whether it had more, and how many bytes
// were printed.
#[derive(Clone, Copy)]
pub struct Taken {
    pub state: State,
    pub len: usize,
    pub over: bool,
    pub printed: usize,
}
