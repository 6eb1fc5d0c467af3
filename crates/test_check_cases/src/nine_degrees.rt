// The limits of the global test at nine degrees of freedom.
ghost use Rattle.std.specs.Prelude.{◌≡◌, true, ◌≤◌};
ghost use Rattle.book.specs.Book.{sound};

use super::books::level;
use super::shown::{answer, numbered_title};
use book::Book;

// Ten height differences of one unknown: nine degrees of freedom. The last two weigh v and w, the others 100.
fn ten(mut book: Book, ups: [i64; 10], v: i64, w: i64) -> Book
    requires { sound book ≡ true }
    ensures { sound result ≡ true }
{
    for i in 0..10 {
        let weight = match i {
            8 => v,
            9 => w,
            _ => 100,
        };
        book = level(book, i as i64 + 1, 1, 2, ups[i], weight);
    }
    book
}

// T at both sides of the two limits, on a book whose first station is known and whose second is the one of unknown height.
pub(crate) fn nine_degrees(book: Book, long: usize)
    requires { (sound book ≡ true) × (long ≤ 128) }
{
    for (t, ups, v, w, m) in [
        (
            2700000,
            [1116, 884, 1005, 995, 1003, 997, 1003, 997, 1010, 990],
            1,
            1,
            1338830,
        ),
        (
            2699999,
            [1116, 884, 1004, 996, 1002, 998, 1001, 999, 1006, 961],
            1,
            3,
            1335500,
        ),
        (
            19023000,
            [1308, 692, 1015, 985, 1005, 995, 1000, 1000, 1010, 990],
            1,
            1,
            1338830,
        ),
        (
            19023001,
            [1308, 692, 1015, 985, 1005, 995, 1001, 999, 1001, 1000],
            1,
            1,
            1338830,
        ),
    ] {
        numbered_title(b"D 9, T", t);
        answer(ten(book, ups, v, w), 0, m, long);
    }
}
