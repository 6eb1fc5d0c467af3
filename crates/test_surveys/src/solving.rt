// A survey through the book, the engine and the check, beside the figures of the exact solver.
ghost use Rattle.std.specs.Prelude.{◌≡◌, true, ◌≤◌};
ghost use Rattle.book.specs.Book.{sound};

use super::printing::{lines_beside, text};
use super::records::book_of;
use book::{Book, Refusal};
use engine::Proposal;

// A survey: a title, the stations and the records of its book, and the solver's corrections and sheet.
#[derive(Clone, Copy)]
pub(crate) struct Survey<'a> {
    pub(crate) title: &'a str,
    pub(crate) stations: &'a str,
    pub(crate) records: &'a str,
    pub(crate) corrections: &'a str,
    pub(crate) sheet: &'a str,
}

fn say(answer: Result<(), acceptance::Refusal>) {
    if answer.is_ok() {
        text("accepted; exact | this program | difference\n");
    } else {
        text("refused ");
        io::print_decimal(1, acceptance::number(answer));
        text("\n");
    }
}

// The check of the engine's pair, x of n numbers and m of n·n, to a sheet; lent lengths that do not fit give no proposal.
fn solve(book: Book, x: &mut [i64], m: &mut [i64], sheet: &mut [i64])
    requires { sound book ≡ true }
{
    let mut work = [0.0f64; 4608];
    match engine::propose(book, x, m, &mut work) {
        Proposal::Made => say(checks::check_sheet(book, x, m, sheet)),
        Proposal::Nothing => text("no proposal\n"),
    }
}

// The sheet, of WORDS words, of a survey of N unknowns, and all of it beside the solver's figures; SQUARE is N·N.
pub(crate) fn show<const N: usize, const SQUARE: usize, const WORDS: usize>(
    survey: Survey<'_>,
) -> Result<[i64; WORDS], Refusal>
    requires { (N ≤ 48) × (SQUARE ≤ 2304) × (WORDS ≤ 4096) }
{
    text(survey.title);
    let book = book_of(survey.stations, survey.records)?;
    let mut x = [0i64; N];
    let mut m = [0i64; SQUARE];
    let mut sheet = [0i64; WORDS];
    solve(book, &mut x, &mut m, &mut sheet);
    lines_beside(&x, 0, survey.corrections);
    lines_beside(&sheet, 2, survey.sheet);
    Ok(sheet)
}
