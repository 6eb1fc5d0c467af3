// Runs the cases of document 01's "Both sides of each line" that need no text, and the limits around them, through edits and check_sheet: first those that are proved, then the
// others, and document 02's records that are checks only. A line names the case, then come the answers to its edits (of the others, the numbers of refused ones), the answer's number
// (and the unknown of an 11) and, where it is accepted, the sheet's words with the lent ones beyond, which are -1.
#![tactic(auto)]

mod books;
mod checks_only;
mod nine_degrees;
mod shown;

ghost use Rattle.std.specs.Prelude.{◌≡◌, true, ◌<◌, length, IfOk};
ghost use Rattle.book.specs.Book.{sound};
ghost use Rattle.cases.specs.Table.{table};

use book::{Book, Call, Change, Refusal};
use books::{baseline, called_often, level, opened, printed, two, undone};
use checks_only::checks_only;
use nine_degrees::nine_degrees;
use shown::{answer, edits, print_answer, show, title};

// The cases that are proved, by the table of the crate cases.
fn case_title(k: usize) {
    match k {
        0 => title(b"as printed"),
        1 => title(b"X 51"),
        2 => title(b"M 0"),
        3 => title(b"no records"),
        4 => title(b"1200 entered over it, X 50"),
        5 => title(b"1200 entered over it, X 100"),
        6 => title(b"undone, X 50"),
        7 => title(b"undo on a new book"),
        8 => title(b"1276, X 138"),
        9 => title(b"1278, X 139"),
        10 => title(b"difference 101000"),
        11 => title(b"difference 101001"),
        12 => title(b"EN 100"),
        _ => title(b"EN 99"),
    }
}

// Case k, with four lent answers and 33 lent words, each of them -1 before.
fn show_case(k: usize)
    requires { k < length table }
{
    case_title(k);
    let mut answers = [-1i64; 4];
    let mut sheet = [-1i64; 33];
    let answer = cases::run_case(k, &mut answers, &mut sheet);
    edits(&answers);
    print_answer(answer, &sheet);
}

fn proved_cases() {
    for k in 0..14 {
        show_case(k);
    }
}

fn sheet_room() -> Result<(), Refusal> {
    title(b"sheet one word short");
    answer(printed(two()?, 1100), 50, 5368709, 24);
    title(b"sheet of just the room");
    answer(printed(two()?, 1100), 50, 5368709, 25);
    Ok(())
}

// 65 edits: one fills a place and 64 are entered over it, each an edit, though all but the first enter the record that is there; then 64 undos, and one more.
fn history() -> Result<(), Refusal> {
    let over = Change::Enter(network::height_of(1, 2, 1001, 100));
    title(b"65 edits");
    let b = called_often(level(two()?, 1, 1, 2, 1000, 100), Call::Edit(1, over));
    answer(b, 1, 10737418, 23);
    title(b"64 undos");
    let first = called_often(b, Call::Undo);
    answer(first, 0, 10737418, 23);
    title(b"one more");
    answer(undone(first), 0, 10737418, 23);
    Ok(())
}

// A known station, two free ones and one of unknown height.
fn four() -> Result<Book, Refusal>
    ensures { IfOk result (λ b. sound b ≡ true) }
{
    let list = [1i64, 0, 0, 0, 2, 0, 0, 1000, 2, 0, 0, 2000, 3, 0, 0, 1000];
    opened(&list)
}

fn untied(book: Book)
    requires { sound book ≡ true }
{
    show(book, &[0; 7], &[0; 49], 100);
}

fn disconnected() -> Result<(), Refusal> {
    title(b"no chain in E, N: levelling alone");
    untied(level(
        level(level(four()?, 1, 1, 2, 1000, 100), 2, 2, 3, 1000, 100),
        3,
        1,
        4,
        1000,
        100,
    ));
    title(b"no chain in E, N at the second free station");
    untied(level(
        level(baseline(four()?, 1, 1, 2, [0, 0, 1000]), 2, 2, 3, 1000, 100),
        3,
        1,
        4,
        1000,
        100,
    ));
    title(b"no chain in U at the station of unknown height");
    untied(baseline(
        baseline(four()?, 1, 1, 2, [0, 0, 1000]),
        2,
        2,
        3,
        [0, 0, 1000],
    ));
    title(b"two free stations joined to each other alone");
    untied(level(baseline(four()?, 1, 2, 3, [0, 0, 1000]), 2, 1, 4, 1000, 100));
    title(b"all joined, M 0");
    untied(level(
        baseline(
            baseline(four()?, 1, 1, 2, [0, 0, 1000]),
            2,
            2,
            3,
            [0, 0, 1000],
        ),
        3,
        1,
        4,
        1000,
        100,
    ));
    Ok(())
}

fn cases() -> Result<(), Refusal> {
    proved_cases();
    sheet_room()?;
    nine_degrees(two()?, 50);
    history()?;
    disconnected()?;
    checks_only()
}

// An opening that is refused ends the output, by its number.
fn main() {
    if let Err(refusal) = cases() {
        shown::refused(refusal);
    }
}
