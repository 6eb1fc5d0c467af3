// Document 02's request 5: positions, through edits and check_sheet. A chain may end at a station with one, also where no station is held; at a known station it is a check only; at one of
// unknown height it adds 3 to D and the whole of its share to T; its local test takes off the station's variance alone. A line names the case, then comes what shown.rt says. The
// expected words were worked out by a script from the documents' rules.
#![tactic(auto)]

mod books;
mod shown;

ghost use Rattle.std.specs.Prelude.{◌≡◌, true, ◌≤◌, IfOk};
ghost use Rattle.book.specs.Book.{sound};

use book::{Book, Refusal};
use books::{FREE, KNOWN, baseline, level, opened, position, two, undone, with_third};
use network::Kind;
use shown::show;

// S times the inverse of the weights of a record, and multiples of it, rounded: in E and in N, of E with N, in U.
const INVERSE: [i64; 3] = [11184811, -2236962, 10737418];

const TWICE: [i64; 3] = [22369621, -4473924, 21474836];

const TWO_THIRDS: [i64; 3] = [7456540, -1491308, 7158279];

const HALF: [i64; 3] = [5592405, -1118481, 5368709];

const THIRD: [i64; 3] = [3728270, -745654, 3579139];

const QUARTER: [i64; 3] = [2796203, -559241, 2684355];

// A case of one free station: the answer to x and its M.
fn show_one(name: &[u8], book: Book, x: [i64; 3], a: [i64; 3], long: usize)
    requires { (sound book ≡ true) × (long ≤ 64) }
{
    let m = [a[0], a[1], 0, a[1], a[0], 0, 0, 0, a[2]];
    show(name, book, &x, &m, long);
}

// M of two free stations: of the first, between them, and of the second.
fn of_two(a: [i64; 3], b: [i64; 3], c: [i64; 3]) -> [i64; 36] {
    [
        a[0], a[1], 0, b[0], b[1], 0, a[1], a[0], 0, b[1], b[0], 0, 0, 0, a[2], 0, 0, b[2], b[0],
        b[1], 0, c[0], c[1], 0, b[1], b[0], 0, c[1], c[0], 0, 0, 0, b[2], 0, 0, c[2],
    ]
}

// No station is held.
fn at_one_free_station() -> Result<(), Refusal> {
    let none = opened(&[FREE, 0, 0, 100000])?;
    let one = position(none, 1, 1, [30, -40, 100050])?;
    let more = position(one, 2, 1, [90, -120, 100150])?;
    let x = [30, -40, 50];
    show_one(b"a free station alone", none, x, INVERSE, 20);
    show_one(b"with its position", one, x, INVERSE, 20);
    show_one(b"the sheet one word short", one, x, INVERSE, 18);
    show_one(b"with two positions", more, [60, -80, 100], HALF, 27);
    show_one(b"the second undone", undone(more)?, x, INVERSE, 20);
    Ok(())
}

// No station is held.
fn at_two_free_stations() -> Result<(), Refusal> {
    let none = baseline(
        opened(&[FREE, 0, 0, 100000, FREE, 0, 0, 101000])?,
        1,
        1,
        2,
        [60, -80, 1000],
    )?;
    let one = position(none, 2, 2, [90, -120, 101150])?;
    let both = position(one, 3, 1, [0, 0, 100000])?;
    let x = [30i64, -40, 150, 90, -120, 150];
    let m = of_two(TWICE, INVERSE, INVERSE);
    show(b"a baseline between free stations alone", none, &x, &m, 34);
    show(b"with a position at the second", one, &x, &m, 34);
    show(
        b"with positions at both",
        both,
        &[10, -13, 50, 80, -107, 100],
        &of_two(TWO_THIRDS, THIRD, TWO_THIRDS),
        41,
    );
    Ok(())
}

// U of station 2, then E, N, U of station 3.
fn at_each_kind() -> Result<(), Refusal> {
    let known = position(with_third(Kind::Free)?, 1, 1, [201, 200, 99805])?;
    let height = position(known, 2, 2, [30, -40, 101050])?;
    let b = position(height, 3, 3, [30, -40, 101950])?;
    let e = INVERSE[0];
    let d = INVERSE[1];
    let u = INVERSE[2];
    show(
        b"positions alone, at a known station, one of unknown height and a free one",
        b,
        &[50, 30, -40, -50],
        &[u, 0, 0, 0, 0, e, d, 0, 0, d, e, 0, 0, 0, 0, u],
        48,
    );
    Ok(())
}

// The book with a position at a place, of the known station 3. Its residuals are 201, 200 and -195: in E just beyond what passes, in N and U just within.
fn with_check(book: Book, place: i64) -> Result<Book, Refusal>
    requires { sound book ≡ true }
    ensures { IfOk result (λ b. sound b ≡ true) }
{
    position(book, place, 3, [201, 200, 101805])
}

// D and T are as without it.
fn at_a_known_station() -> Result<(), Refusal> {
    let one = level(with_third(Kind::Known)?, 1, 1, 2, 1000)?;
    let b = level(one, 2, 1, 2, 1100)?;
    show(
        b"a position at a known station",
        with_check(b, 3)?,
        &[50],
        &[HALF[2]],
        40,
    );
    show(
        b"D 0 beside a position at a known station",
        with_check(one, 2)?,
        &[0],
        &[INVERSE[2]],
        37,
    );
    show(
        b"no chain: a position at the known station alone",
        position(two()?, 1, 1, [0, 0, 100000])?,
        &[0],
        &[0],
        27,
    );
    Ok(())
}

// It counts 3, though E and N are held.
fn at_an_unknown_height() -> Result<(), Refusal> {
    let b = level(two()?, 1, 1, 2, 1000)?;
    show(
        b"a position at a station of unknown height, and a height difference",
        position(b, 2, 2, [30, -40, 101100])?,
        &[50],
        &[HALF[2]],
        30,
    );
    show(
        b"a position at a station of unknown height alone",
        position(two()?, 1, 2, [200, -201, 101100])?,
        &[100],
        &[INVERSE[2]],
        27,
    );
    Ok(())
}

// M of two free stations, a baseline between them and a position at the second; the first is joined to a held station too, in U alone.
fn over_baseline() -> [i64; 36] {
    of_two(
        [TWICE[0], TWICE[1], TWO_THIRDS[2]],
        [INVERSE[0], INVERSE[1], THIRD[2]],
        [INVERSE[0], INVERSE[1], TWO_THIRDS[2]],
    )
}

// A known station and two free ones. A height difference ties the first of these in U alone.
fn ends_of_chains() -> Result<(), Refusal> {
    let none = opened(&[KNOWN, 0, 0, 100000, FREE, 0, 0, 101000, FREE, 0, 0, 102000])?;
    let b = baseline(level(none, 1, 1, 2, 1000)?, 2, 2, 3, [0, 0, 1000])?;
    let ended = position(b, 3, 3, [30, -40, 102300])?;
    let first = level(position(none, 1, 2, [30, -40, 101100])?, 2, 2, 3, 1000)?;
    let x = [30i64, -40, 100, 30, -40, 200];
    let m = over_baseline();
    show(
        b"no chain in E, N: a height difference, and a baseline on to a second free station",
        b,
        &x,
        &m,
        44,
    );
    show(
        b"with a position at the second free station",
        ended,
        &x,
        &m,
        44,
    );
    show(
        b"no chain in E, N at the second free station: a position at the first, and a height difference on",
        first,
        &x,
        &m,
        44,
    );
    Ok(())
}

// Three equal baselines and a position at a free station: with the variance taken off twice 173 and 169 would fail, with none taken off 174 and 170 would pass.
fn local_tests() -> Result<(), Refusal> {
    let none = opened(&[KNOWN, 0, 0, 100000, FREE, 0, 0, 101000])?;
    let one = baseline(none, 1, 1, 2, [0, 0, 1000])?;
    let b = baseline(baseline(one, 2, 1, 2, [0, 0, 1000])?, 3, 1, 2, [0, 0, 1000])?;
    for (name, observed, up) in [
        (
            b"residuals of a position that just pass",
            [231, -231, 101225],
            56,
        ),
        (
            b"residuals of a position that just fail",
            [232, -232, 101227],
            57,
        ),
    ] {
        show_one(
            name,
            position(b, 4, 2, observed)?,
            [58, -58, up],
            QUARTER,
            48,
        );
    }
    Ok(())
}

fn cases() -> Result<(), Refusal> {
    at_one_free_station()?;
    at_two_free_stations()?;
    at_each_kind()?;
    at_a_known_station()?;
    at_an_unknown_height()?;
    ends_of_chains()?;
    local_tests()
}

fn main() {
    if let Err(refusal) = cases() {
        io::write_all(1, b"refused ");
        io::print_decimal(1, u64::from(refusal));
        io::write_all(1, b"\n");
    }
}
