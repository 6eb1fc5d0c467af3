// The check of a book and a lent solution, without and with a lent sheet.
ghost use Rattle.std.specs.Prelude.{◌≡◌, true, ◌&&◌, ◌+◌, ◌*◌, ◌/◌, ◌%◌, ◌≤◌, leb, eqb, length, take};
ghost use Rattle.words.specs.Runs.{put_words};
ghost use Rattle.acceptance.specs.Judge.{answer_number, answer_unknown};
ghost use Rattle.layout.specs.Bytes.{book_of, bytes_fit};
ghost use Rattle.sheet.specs.Sheet.{sheet_words, room};
ghost use Rattle.checks.specs.Checks.{checked};
ghost use Rattle.lent_checks.specs.LentChecks.{all_words, sizes_fit, answer_most, answer_word, checked_lent, sheet_fits, on_accepted};

use acceptance::Refusal;
use normals::Normals;

// The answer as a C call gives it.
pub fn answer_word(answer: Result<(), Refusal>) -> i64
    requires { answer_number answer + 256 * answer_unknown answer ≤ answer_most }
    ensures { result ≡ answer_word answer }
{
    (acceptance::number(answer) + 256 * acceptance::unknown(answer)) as i64
}

// Whole words, and no more than a book can ask for.
pub fn sizes_fit(x: &[u8], m: &[u8]) -> bool
    ensures { result ≡ sizes_fit x.now m.now }
{
    (x.len() % 8 == 0)
        & (m.len() % 8 == 0)
        & (x.len() <= 8 * Normals::ROW)
        & (m.len() <= 8 * Normals::ENTRIES)
}

// The words of a lent slice, to the front of room for them.
fn read_front(s: &[u8], room: &mut [i64])
    requires { length s.now ≤ 8 * length room.old }
    ensures { take (length s.now / 8) room.new ≡ all_words s.now }
{
    let n = s.len() / 8;
    words::read_words(s, 0, &mut room[..n]);
}

// The same in room for N words: those of the corrections, or of the matrix, of a book with 48 unknowns.
pub fn words_of<const N: usize>(s: &[u8]) -> [i64; N]
    requires { length s.now ≤ 8 * N }
    ensures room { N ≡ length result }
    ensures words { take (length s.now / 8) result ≡ all_words s.now }
{
    let mut w = [0; N];
    read_front(s, &mut w);
    w
}

pub fn check_lent(book: &[u8], x: &[u8], m: &[u8]) -> Result<(), Refusal>
    requires { bytes_fit book.now ≡ true }
    ensures { (result ≡ checked_lent (book_of book.now) x.now m.now true) × (answer_number result + 256 * answer_unknown result ≤ answer_most) }
{
    if !sizes_fit(x, m) {
        return Err(Refusal::Lengths);
    }
    let i = x.len() / 8;
    let j = m.len() / 8;
    let xs = words_of::<{ Normals::ROW }>(x);
    let ms = words_of::<{ Normals::ENTRIES }>(m);
    checks::check_in(book, &xs[..i], &ms[..j])
}

// On acceptance the words w go to the front of the bytes.
#[tactic(auto, using(crate::proofs::Answers::delivered, crate::proofs::Answers::withheld))]
fn deliver(answer: Result<(), Refusal>, out: &mut [u8], w: &[i64]) -> Result<(), Refusal>
    requires { 8 * length w.now ≤ length out.old }
    ensures { (result ≡ answer) × (out.new ≡ on_accepted answer (put_words out.old 0 w.now) out.old) }
{
    if answer.is_ok() {
        words::write_words(out, 0, w);
    }
    answer
}

// The check of lent slices whose sizes fit, with just the n words that the sheet takes.
fn sheet_lent(book: &[u8], x: &[u8], m: &[u8], out: &mut [u8], n: usize) -> Result<(), Refusal>
    requires { (bytes_fit book.now ≡ true) × (n ≡ room (book_of book.now).network (book_of book.now).places) × (8 * n ≤ length out.old) × (sizes_fit x.now m.now ≡ true) }
    ensures { (result ≡ checked (book_of book.now) (all_words x.now) (all_words m.now) true) × (out.new ≡ on_accepted result (put_words out.old 0 (sheet_words (book_of book.now).network (book_of book.now).places (all_words x.now) (all_words m.now))) out.old) }
{
    let i = x.len() / 8;
    let j = m.len() / 8;
    let xs = words_of::<{ Normals::ROW }>(x);
    let ms = words_of::<{ Normals::ENTRIES }>(m);
    let mut ws = [0; sheet::LONGEST];
    let a = checks::check_sheet_in(book, &xs[..i], &ms[..j], &mut ws[0..n]);
    deliver(a, out, &ws[0..n])
}

// Whole words, and room for n of them.
fn room_fits(n: usize, long: usize) -> bool
    ensures { result ≡ (eqb (long % 8) 0 && leb n (long / 8)) }
{
    (long % 8 == 0) & (n <= long / 8)
}

// It is not inlined: the C call's test of the book's bytes, before it, then has the stack to itself.
#[inline(never)]
pub fn check_sheet_lent(book: &[u8], x: &[u8], m: &[u8], out: &mut [u8]) -> Result<(), Refusal>
    requires { bytes_fit book.now ≡ true }
    ensures value { (result ≡ checked_lent (book_of book.now) x.now m.now (sheet_fits (book_of book.now) out.old)) × (answer_number result + 256 * answer_unknown result ≤ answer_most) }
    ensures out_after { out.new ≡ on_accepted result (put_words out.old 0 (sheet_words (book_of book.now).network (book_of book.now).places (all_words x.now) (all_words m.now))) out.old }
{
    if !sizes_fit(x, m) {
        return Err(Refusal::Lengths);
    }
    let n = checks::room_in(book);
    if !room_fits(n, out.len()) {
        return Err(Refusal::Lengths);
    }
    sheet_lent(book, x, m, out, n)
}
