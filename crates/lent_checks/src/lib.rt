// Checks, check distances and proposals on bytes that hold a book, with x, M and the sheet in lent bytes: words of 8 bytes, little-endian.
#![tactic(auto)]

mod checking;
mod distance;
mod proposing;

pub use checking::{answer_word, check_lent, check_sheet_lent};
pub use distance::{agreement_word, check_distance_lent};
pub use proposing::{proposal_word, propose_lent};
