// The C calls that check a solution against the book in lent bytes, and a taped distance against its sheet.
ghost use Rattle.std.specs.Prelude.{◌≡◌};
ghost use Rattle.dombrelat.specs.CheckCalls.{check_call, sheet_call, distance_of, distance_call};

use super::NO_BOOK;
use distances::CheckDistance;

// Checks corrections x and M against the book.
#[unsafe(no_mangle)]
pub extern "C" fn dombrelat_check(book: &[u8], x: &[u8], m: &[u8]) -> i64
    ensures { result ≡ check_call book.now x.now m.now }
{
    if !layout::holds_book(book) {
        return NO_BOOK;
    }
    let a = lent_checks::check_lent(book, x, m);
    lent_checks::answer_word(a)
}

// The check, and on acceptance the sheet at the front of the lent bytes.
#[unsafe(no_mangle)]
pub extern "C" fn dombrelat_check_sheet(book: &[u8], x: &[u8], m: &[u8], out: &mut [u8]) -> i64
    ensures value { result ≡ (sheet_call book.now x.now m.now out.old).answer }
    ensures out_after { out.new ≡ (sheet_call book.now x.now m.now out.old).sheet }
{
    if !layout::holds_book(book) {
        return NO_BOOK;
    }
    let a = lent_checks::check_sheet_lent(book, x, m, out);
    lent_checks::answer_word(a)
}

// Holds a taped distance against the coordinates of an accepted pair.
#[unsafe(no_mangle)]
pub extern "C" fn dombrelat_check_distance(
    book: &[u8],
    x: &[u8],
    m: &[u8],
    from: i64,
    to: i64,
    distance: i64,
    instrument: i64,
    target: i64,
    tolerance: i64,
) -> i64
    ensures { result ≡ distance_call book.now x.now m.now (distance_of from to distance instrument target tolerance) }
{
    if !layout::holds_book(book) {
        return NO_BOOK;
    }
    let d = CheckDistance {
        from,
        to,
        distance,
        instrument,
        target,
        tolerance,
    };
    let a = lent_checks::check_distance_lent(book, x, m, d);
    lent_checks::agreement_word(a)
}
