// What a case prints: its name, then the number of the answer (and the unknown of an 11) and the lent words of the sheet, each of them -1 before.
ghost use Rattle.std.specs.Prelude.{◌≡◌, true, ◌≤◌};
ghost use Rattle.book.specs.Book.{sound};

use acceptance::Refusal;
use book::Book;

// Stays: each test program prints its signed numbers itself, since it stands alone, and a contract of a shared function could state nothing of what it prints.
fn signed(v: i64) {
    io::write_all(1, b" ");
    if v < 0 {
        io::write_all(1, b"-");
    }
    io::print_decimal(1, v.unsigned_abs());
}

fn print_words(sheet: &[i64]) {
    for v in sheet {
        signed(*v);
    }
}

fn print_answer(answer: Result<(), Refusal>, sheet: &[i64]) {
    io::write_all(1, b" ");
    io::print_decimal(1, acceptance::number(answer));
    if let Err(Refusal::Untied(unknown)) = answer {
        io::write_all(1, b" ");
        io::print_decimal(1, unknown);
    }
    io::write_all(1, b" :");
    print_words(sheet);
    io::write_all(1, b"\n");
}

// The answer to x and M with `long` lent words.
pub(crate) fn show(name: &[u8], book: Book, x: &[i64], m: &[i64], long: usize)
    requires { (sound book ≡ true) × (long ≤ 64) }
{
    io::write_all(1, name);
    io::write_all(1, b"\n");
    let mut sheet = [-1i64; 64];
    let lent = &mut sheet[..long];
    let answer = checks::check_sheet(book, x, m, lent);
    print_answer(answer, lent);
}
