// What the program prints: message lines, the sheet, a check, and the engine's proposal. Document 01's "The night print".
#![tactic(auto)]

ghost use Rattle.std.specs.Prelude.{◌≡◌, length};

mod checking;
mod messages;
mod proposing;
mod rooms;
mod sheet_text;

pub use checking::write_check;
pub use messages::{
    write_no_proposal, write_refused, write_refused_line, write_refused_unknown,
    write_unreadable_line,
};
pub use proposing::write_proposal;
pub use rooms::{LINE_ROOM, SHEET_ROOM};
pub use sheet_text::write_sheet;

// How far a sheet is printed: the position after it, and the first word that is not printed.
#[derive(Clone, Copy)]
struct SheetPrinted {
    next: usize,
    word: usize,
}

// Room for N numbers: a sheet takes at most 2,021 words, and the pair of a book with 48 unknowns 48 and 2,304.
fn zeros<const N: usize>() -> [i64; N]
    ensures { N ≡ length result }
{
    [0; N]
}
