// What is printed of a check distance and its answer.
ghost use Rattle.std.specs.Prelude.{◌≡◌, true};
ghost use Rattle.book.specs.Book.{sound};

use acceptance::Refusal;
use book::Book;
use distances::{Agreement, CheckDistance, DistanceRefusal};

// Stays: each test program prints its signed numbers itself, since it stands alone, and a contract of a shared function could state nothing of what it prints.
fn print_field(v: i64) {
    io::write_all(1, b" ");
    if v < 0 {
        io::write_all(1, b"-");
    }
    io::print_decimal(1, v.unsigned_abs());
}

fn print_fields(list: &[i64]) {
    for v in list {
        print_field(*v);
    }
}

pub(crate) fn print_list(name: &[u8], list: &[i64]) {
    io::write_all(1, name);
    print_fields(list);
    io::write_all(1, b"\n");
}

fn print_refusal(refusal: DistanceRefusal) {
    io::write_all(1, b": refused");
    print_field(distances::number(Err(refusal)));
    if let DistanceRefusal::Pair(Refusal::Untied(unknown)) = refusal {
        io::write_all(1, b" unknown ");
        io::print_decimal(1, unknown);
    }
    io::write_all(1, b"\n");
}

fn print_answer(answer: Result<Agreement, DistanceRefusal>) {
    match answer {
        Ok(Agreement::Agrees) => {
            io::write_all(1, b": agrees\n");
        }
        Ok(Agreement::Disagrees) => {
            io::write_all(1, b": does not agree\n");
        }
        Err(refusal) => print_refusal(refusal),
    }
}

// The answer to a check distance, with its values before it: from, to, distance, instrument and target height, tolerance.
pub(crate) fn ask(book: Book, x: &[i64], m: &[i64], row: [i64; 6])
    requires { sound book ≡ true }
{
    io::write_all(1, b"D");
    print_fields(&row);
    let [from, to, distance, instrument, target, tolerance] = row;
    let d = CheckDistance {
        from,
        to,
        distance,
        instrument,
        target,
        tolerance,
    };
    print_answer(distances::check_distance(book, x, m, d));
}
