// Document 02's request 2: a record whose ends have no unknown in any component in which it acts is a check only. It adds nothing to D or T; its residuals, its verdicts and its place
// in the count of records stay.
ghost use Rattle.std.specs.Prelude.{◌≡◌, true};
ghost use Rattle.book.specs.Book.{sound};

use super::books::{baseline, level, printed, two, with_third};
use super::nine_degrees::nine_degrees;
use super::shown::{answer, show, title};
use book::{Book, Refusal};
use network::Kind;

// M of one unknown whose records weigh 100 in U, and 200.
const M1: i64 = 10737418;

const M2: i64 = 5368709;

// M of the heights of two stations, each joined with weight 100 to a held height and to the other.
const VARIANCE_U: i64 = 7158279;

const COVARIANCE_U: i64 = 3579139;

// M of E and N of a station with two baselines to held ones.
const VARIANCE_EN: i64 = 5592405;

const COVARIANCE_EN: i64 = -1118481;

// The book with a baseline at a place between the known stations 1 and 3. Its residuals are 201, 200 and -195: in E just beyond what passes, in N and U just within.
fn with_check(book: Book, place: i64) -> Book
    requires { sound book ≡ true }
    ensures { sound result ≡ true }
{
    baseline(book, place, 1, 3, [201, 200, 1805])
}

fn between_known_stations() -> Result<(), Refusal> {
    let b = printed(with_third(Kind::Known)?, 1100);
    title(b"no record between known stations");
    answer(b, 50, M2, 33);
    title(b"a baseline between known stations");
    answer(with_check(b, 3), 50, M2, 40);
    title(b"height differences between known stations");
    let one = level(b, 3, 1, 3, 2196, 100);
    answer(level(one, 4, 3, 1, -2195, 100), 50, M2, 39);
    Ok(())
}

// One record for one unknown.
fn no_degrees() -> Result<(), Refusal> {
    let b = level(with_third(Kind::Known)?, 1, 1, 2, 1000, 100);
    title(b"D 0");
    answer(b, 0, M1, 30);
    title(b"D 0 beside a baseline between known stations");
    answer(with_check(b, 2), 0, M1, 37);
    Ok(())
}

// Each of the baselines counts 3 and each of the height differences 1.
fn at_an_unknown_height() -> Result<(), Refusal> {
    let b = level(two()?, 1, 1, 2, 1000, 100);
    title(b"a baseline from a known station to one of unknown height");
    answer(baseline(b, 2, 1, 2, [30, -40, 1100]), 50, M2, 30);
    title(b"a baseline back");
    answer(baseline(b, 2, 2, 1, [-30, 40, -1100]), 50, M2, 30);
    title(b"a height difference back");
    answer(level(b, 2, 2, 1, -1100, 100), 50, M2, 26);
    Ok(())
}

// Two stations of unknown height, each levelled from the known one, and a record between them.
fn between_unknown_heights() -> Result<(), Refusal> {
    let b = level(
        level(with_third(Kind::Height)?, 1, 1, 2, 1000, 100),
        2,
        1,
        3,
        2000,
        100,
    );
    let x = [-50i64, 50];
    let m = [VARIANCE_U, COVARIANCE_U, COVARIANCE_U, VARIANCE_U];
    title(b"a baseline between stations of unknown height");
    show(baseline(b, 3, 2, 3, [30, -40, 1150]), &x, &m, 40);
    title(b"a height difference between stations of unknown height");
    show(level(b, 3, 2, 3, 1150, 100), &x, &m, 36);
    Ok(())
}

// U of station 2, then E, N, U of station 3.
fn at_a_free_station() -> Result<(), Refusal> {
    title(b"baselines from a known station to a free one, and on to one of unknown height");
    let first = baseline(with_third(Kind::Free)?, 2, 1, 3, [60, -80, 2000]);
    let b = level(baseline(first, 3, 3, 2, [0, 0, -850]), 1, 1, 2, 1000, 100);
    let x = [50i64, 30, -40, -50];
    let u = VARIANCE_U;
    let c = COVARIANCE_U;
    let e = VARIANCE_EN;
    let d = COVARIANCE_EN;
    let m = [u, 0, 0, c, 0, e, d, 0, 0, d, e, 0, c, 0, 0, u];
    show(b, &x, &m, 44);
    Ok(())
}

pub(crate) fn checks_only() -> Result<(), Refusal> {
    between_known_stations()?;
    no_degrees()?;
    at_an_unknown_height()?;
    between_unknown_heights()?;
    at_a_free_station()?;
    title(b"nine degrees of freedom beside a baseline between known stations");
    nine_degrees(
        baseline(with_third(Kind::Known)?, 11, 1, 3, [90000, -80000, 72000]),
        64,
    );
    Ok(())
}
