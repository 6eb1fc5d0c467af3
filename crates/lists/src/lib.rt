// A list stored in another.
#![tactic(auto)]

mod pasting;

pub use pasting::paste;
