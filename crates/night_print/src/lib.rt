// Document 01's "The night print", all of it but for reading and writing: a run step by step, by what each read gave, and a whole text at once.
#![tactic(auto)]

mod closing;
mod stepping;

use adjustment::Taken;
pub use closing::{END_ROOM, print_text};
pub use stepping::step;

// How a run goes on: it reads the next chunk; all is printed, since its input has ended, or since its opening was refused; or its input could not be read.
#[derive(Clone, Copy)]
pub enum Progress {
    Reading,
    Finished,
    Refused,
    Unread,
}

// A run after a step, how many bytes are to be written, and how it goes on.
#[derive(Clone, Copy)]
pub struct Stepped {
    pub taken: Taken,
    pub printed: usize,
    pub progress: Progress,
}
