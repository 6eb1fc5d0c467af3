// What the cases print.
ghost use Rattle.std.specs.Prelude.{◌≡◌, true, ◌≤◌};
ghost use Rattle.book.specs.Book.{sound};

use acceptance::Refusal;
use book::Book;

// A case begins.
pub(crate) fn title(name: &[u8]) {
    io::write_all(1, name);
    io::write_all(1, b"\n");
}

fn field(n: u64) {
    io::write_all(1, b" ");
    io::print_decimal(1, n);
}

// A case that is known by a number.
pub(crate) fn numbered_title(name: &[u8], n: u64) {
    io::write_all(1, name);
    field(n);
    io::write_all(1, b"\n");
}

// Stays: each test program prints its signed numbers itself, since it stands alone, and a contract of a shared function could state nothing of what it prints.
fn signed(v: i64) {
    io::write_all(1, b" ");
    if v < 0 {
        io::write_all(1, b"-");
    }
    io::print_decimal(1, v.unsigned_abs());
}

// An edit that was refused, by its number.
pub(crate) fn refused(refusal: book::Refusal) {
    io::write_all(1, b" edit refused");
    field(u64::from(refusal));
    io::write_all(1, b"\n");
}

// How many of the lent words are no longer -1.
fn changed(sheet: &[i64]) -> usize {
    sheet.iter().filter(|v| **v != -1).count()
}

fn print_words(sheet: &[i64]) {
    for v in sheet {
        signed(*v);
    }
}

// The answers to edits.
pub(crate) fn edits(answers: &[i64]) {
    io::write_all(1, b" edits");
    print_words(answers);
    io::write_all(1, b"\n");
}

pub(crate) fn print_answer(answer: Result<(), Refusal>, sheet: &[i64]) {
    field(acceptance::number(answer));
    if let Err(Refusal::Untied(unknown)) = answer {
        field(unknown);
    }
    if answer.is_ok() {
        io::write_all(1, b" :");
        print_words(sheet);
    } else {
        io::write_all(1, b" : changed");
        field(changed(sheet) as u64);
    }
    io::write_all(1, b"\n");
}

// The answer to x and M with `long` lent words, each of them -1 before.
pub(crate) fn show(book: Book, x: &[i64], m: &[i64], long: usize)
    requires { (sound book ≡ true) × (long ≤ 128) }
{
    let mut sheet = [-1i64; 128];
    let lent = &mut sheet[..long];
    let answer = checks::check_sheet(book, x, m, lent);
    print_answer(answer, lent);
}

// A check of one unknown.
pub(crate) fn answer(book: Book, x: i64, m: i64, long: usize)
    requires { (sound book ≡ true) × (long ≤ 128) }
{
    show(book, &[x], &[m], long);
}
