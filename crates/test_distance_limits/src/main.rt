// Prints the answer to check distances: at the limits of their values, one beyond them and at the extremes of 64 bits, at the ends of what agrees and one beyond those, and with pairs
// (x, M) that the check refuses. Lines before them give what they are asked with: the words of the station list, the records (each weight is 100, none between two components), X and M.
// A check distance is from, to, distance, instrument and target height, tolerance; then comes the answer. Document 02 decides what stands in `stdout`.
#![tactic(auto)]

mod books;
mod shown;

ghost use Rattle.std.specs.Prelude.{◌≡◌, true};
ghost use Rattle.book.specs.Book.{sound};

use book::{Book, Refusal};
use books::{DIAGONAL, Survey, baseline, height, inverse, opened, surveyed, three, tied};
use distances::CheckDistance;
use shown::{ask, print_list};

const LEAST: i64 = -9223372036854775808;

const GREATEST: i64 = 9223372036854775807;

// The greatest distance, height and tolerance.
const DISTANCE: i64 = CheckDistance::DISTANCE;

const HEIGHT: i64 = CheckDistance::HEIGHT;

const TOLERANCE: i64 = CheckDistance::TOLERANCE;

// ---- 3, 17 and the heights: from 1 to 2 the differences are 75,000, 100,000 and 150,000

fn site() -> Result<Survey, Refusal> {
    surveyed(
        [74900, 100200, 149700, 0, 0, 0],
        [75000, 100000, 150000, 2000, 3000, 6000],
        [100, -200, 300, 2000, 3000, 6000],
    )
}

// In range but for the ends.
fn all_ends(v: &Survey) {
    for (from, to) in [
        (1, 2),
        // from
        (LEAST, 2),
        (-1, 2),
        (0, 2),
        (2, 2),
        (3, 2),
        (4, 2),
        (32, 2),
        (33, 2),
        (GREATEST, 2),
        // to
        (1, LEAST),
        (1, -1),
        (1, 0),
        (1, 1),
        (1, 3),
        (1, 4),
        (1, 32),
        (1, 33),
        (1, GREATEST),
        // both
        (0, 0),
        (3, 3),
        (4, 4),
        (LEAST, GREATEST),
    ] {
        v.ask([from, to, 125000, 150000, 0, 0]);
    }
}

// From 1 to 2, the heights given.
fn all_heights(v: &Survey) {
    for (instrument, target) in [
        (LEAST, 0),
        (-1, 0),
        (0, 0),
        (1, 0),
        (HEIGHT, 0),
        (HEIGHT + 1, 0),
        (GREATEST, 0),
        (0, LEAST),
        (0, -1),
        (0, 1),
        (0, HEIGHT),
        (0, HEIGHT + 1),
        (0, GREATEST),
        (HEIGHT, HEIGHT),
        (HEIGHT + 1, HEIGHT + 1),
        (-1, -1),
    ] {
        v.ask([1, 2, 200000, instrument, target, TOLERANCE]);
    }
}

// From 1 to 2 without heights.
fn all_distances(v: &Survey) {
    for (distance, tolerance) in [
        (LEAST, 0),
        (-1, 0),
        (0, 0),
        (1, 0),
        (DISTANCE, 0),
        (DISTANCE + 1, 0),
        (GREATEST, 0),
        (DISTANCE, TOLERANCE),
        (DISTANCE + 1, TOLERANCE),
        (0, -1),
        (-1, -2),
    ] {
        v.ask([1, 2, distance, 0, 0, tolerance]);
    }
}

// The same. The differences give 195,256 and a part of a unit: 195,257 is the next whole number.
fn all_tolerances(v: &Survey) {
    for (distance, tolerance) in [
        (195257, LEAST),
        (195257, -1),
        (195257, 0),
        (195257, 1),
        (195257, TOLERANCE),
        (195257, TOLERANCE + 1),
        (195257, 195256),
        (195257, 195257),
        (195257, GREATEST),
        // below the distance
        (TOLERANCE + 1, TOLERANCE),
        (TOLERANCE, TOLERANCE),
        (TOLERANCE, TOLERANCE - 1),
        (TOLERANCE - 1, TOLERANCE),
        (2, 1),
        (2, 2),
        (2, 3),
        (1, 1),
        (1, 2),
        (LEAST, LEAST),
        (GREATEST, GREATEST),
    ] {
        v.ask([1, 2, distance, 0, 0, tolerance]);
    }
}

// Target height plus, instrument height minus: 150,000 makes the U difference 0 or 300,000.
fn signs(v: &Survey) {
    v.ask_all(&[
        [1, 2, 125000, 150000, 0, 0],
        [1, 2, 125000, 0, 150000, 0],
        [1, 2, 325000, 0, 150000, 0],
        [1, 2, 325000, 150000, 0, 0],
        [2, 1, 125000, 0, 150000, 0],
        [2, 1, 125000, 150000, 0, 0],
        [2, 1, 325000, 150000, 0, 0],
        [2, 1, 325000, 0, 150000, 0],
        // equal heights are none
        [1, 3, 7000, 0, 0, 0],
        [1, 3, 7000, 150000, 150000, 0],
        [3, 1, 7000, HEIGHT, HEIGHT, 0],
    ]);
}

// 3 before 17, each value beyond its range.
fn ends_first(v: &Survey) {
    v.ask_all(&[
        [1, 1, 0, 0, 0, 0],
        [0, 2, 125000, -1, 0, 0],
        [1, 4, 125000, 0, -1, 0],
        [4, 1, 125000, 0, 0, 125000],
        [1, 2, 0, -1, -1, -1],
        [LEAST, LEAST, LEAST, LEAST, LEAST, LEAST],
        [GREATEST, GREATEST, GREATEST, GREATEST, GREATEST, GREATEST],
        [1, 2, LEAST, LEAST, LEAST, LEAST],
        [1, 2, GREATEST, GREATEST, GREATEST, GREATEST],
    ]);
}

fn values() -> Result<(), Refusal> {
    let v = site()?;
    all_ends(&v);
    all_heights(&v);
    all_distances(&v);
    all_tolerances(&v);
    signs(&v);
    ends_first(&v);
    Ok(())
}

// ---- agreement

// From 1 to 2 D² is 50², and one more where a height is 1; from 1 to 3 it is 17² − 1, and 17² there. By the provisional coordinates it is 2570 and 225.
fn small_squares() -> Result<(), Refusal> {
    let v = surveyed(
        [25, 44, -3, 10, 10, 5],
        [30, 40, 0, 12, 12, 0],
        [5, -4, 3, 2, 2, -5],
    )?;
    far_end(&v);
    near_end(&v);
    v.ask_all(&[
        // one apart in the heights, and the same heights
        [1, 2, 50, 1, 0, 0],
        [1, 2, 50, 1, 1, 0],
        [2, 1, 50, 0, 0, 0],
        // the provisional distance
        [1, 3, 15, 0, 0, 0],
        [1, 3, 15, 0, 0, 1],
        [1, 3, 15, 0, 0, 2],
    ]);
    Ok(())
}

fn far_end(v: &Survey) {
    v.ask_all(&[
        [1, 2, 50, 0, 0, 0],
        [1, 2, 50, 0, 1, 0],
        [1, 2, 49, 0, 0, 0],
        [1, 2, 49, 0, 0, 1],
        [1, 2, 49, 0, 1, 1],
        [1, 2, 40, 0, 0, 10],
        [1, 2, 40, 0, 1, 10],
        [1, 2, 40, 0, 1, 11],
        [1, 2, 40, 0, 0, 9],
        [1, 2, 26, 0, 0, 24],
        [1, 2, 26, 0, 1, 24],
        [1, 2, 26, 0, 1, 25],
    ]);
}

fn near_end(v: &Survey) {
    v.ask_all(&[
        [1, 3, 17, 0, 0, 0],
        [1, 3, 17, 0, 1, 0],
        [1, 3, 18, 0, 0, 1],
        [1, 3, 18, 0, 1, 1],
        [1, 3, 27, 0, 0, 10],
        [1, 3, 27, 0, 1, 10],
        [1, 3, 27, 0, 0, 11],
        [1, 3, 100017, 0, 0, TOLERANCE],
        [1, 3, 100017, 0, 1, TOLERANCE],
        [1, 2, 51, 0, 0, 0],
        [1, 2, 51, 0, 0, 1],
        [1, 2, 60, 0, 0, 10],
        [1, 2, 61, 0, 0, 10],
    ]);
}

// Two marks at one point: D² is 0, and 1 where a height is 1. By the provisional coordinates they are 12 apart.
fn one_point() -> Result<(), Refusal> {
    let v = surveyed(
        [-4, 4, 7, 4, -4, 3],
        [0, 0, 5, 0, 0, 5],
        [4, -4, -2, -4, 4, 2],
    )?;
    v.ask_all(&[
        [2, 3, 1, 0, 0, 0],
        [2, 3, 1, 0, 1, 0],
        [2, 3, 1, 1, 0, 0],
        [2, 3, 2, 0, 0, 1],
        [2, 3, 2, 0, 1, 1],
        [2, 3, 2, 0, 3, 1],
        [2, 3, 2, 0, 4, 1],
        [2, 3, 12, 0, 0, 0],
        [2, 3, 100001, 0, 0, TOLERANCE],
        [2, 3, 100001, 0, 1, TOLERANCE],
        [2, 3, 300000, HEIGHT, 0, 0],
        [2, 3, 300000, 0, HEIGHT, 0],
    ]);
    Ok(())
}

// The largest differences: 1,000,200,000 each, in U 300,000 more by the heights. The root of D² is 1,732,570,440 and a part of a unit.
fn largest() -> Result<(), Refusal> {
    let v = surveyed(
        [
            -500000000, -500000000, -500000000, 500000000, 500000000, 500000000,
        ],
        [
            -500100000, -500100000, -500100000, 500100000, 500100000, 500100000,
        ],
        [-100000, -100000, -100000, 100000, 100000, 100000],
    )?;
    v.ask_all(&[
        [2, 3, 1732570440, 0, HEIGHT, 0],
        [2, 3, 1732570440, 0, HEIGHT, 1],
        [2, 3, 1732570441, 0, HEIGHT, 0],
        [2, 3, 1732570441, 0, HEIGHT, 1],
        [2, 3, 1732470440, 0, HEIGHT, TOLERANCE],
        [2, 3, 1732470441, 0, HEIGHT, TOLERANCE],
        [2, 3, 1732670440, 0, HEIGHT, TOLERANCE],
        [2, 3, 1732670441, 0, HEIGHT, TOLERANCE],
        [2, 3, 1732570441, HEIGHT, 0, 1],
        [3, 2, 1732570441, HEIGHT, 0, 1],
        [3, 2, 1732570441, 0, HEIGHT, 1],
        [2, 3, DISTANCE, 0, HEIGHT, TOLERANCE],
    ]);
    Ok(())
}

// 1,000,200,000 in E and N and half of it in U: D is 1,500,300,000.
fn large_square() -> Result<(), Refusal> {
    let v = surveyed(
        [-500000000, -500000000, 60, 500000000, 500000000, 500000000],
        [-500100000, -500100000, 0, 500100000, 500100000, 500100000],
        [-100000, -100000, -60, 100000, 100000, 100000],
    )?;
    v.ask_all(&[
        [2, 3, 1500300000, 0, 0, 0],
        [2, 3, 1500299999, 0, 0, 0],
        [2, 3, 1500300001, 0, 0, 0],
        [3, 2, 1500200000, 0, 0, TOLERANCE],
        [3, 2, 1500199999, 0, 0, TOLERANCE],
        [3, 2, 1500400000, 0, 0, TOLERANCE],
        [3, 2, 1500400001, 0, 0, TOLERANCE],
    ]);
    Ok(())
}

// 600,120,000 and 800,160,000: D² is 1,000,200,000², and one more where a height is 1.
fn large_and_one() -> Result<(), Refusal> {
    let v = surveyed(
        [-300000000, -400000000, 77, 300000000, 400000000, 80],
        [-300060000, -400080000, 79, 300060000, 400080000, 79],
        [-60000, -80000, 2, 60000, 80000, -1],
    )?;
    v.ask_all(&[
        [2, 3, 1000200000, 0, 0, 0],
        [2, 3, 1000200000, 0, 1, 0],
        [2, 3, 1000200000, 1, 0, 0],
        [2, 3, 1000100000, 0, 0, TOLERANCE],
        [2, 3, 1000100000, 0, 1, TOLERANCE],
        [2, 3, 1000000000, 0, 0, 0],
    ]);
    Ok(())
}

// 543,339,720 twice: D² is 768,398,401² − 1, and the square itself where a height is 1.
fn large_less_one() -> Result<(), Refusal> {
    let v = surveyed(
        [-271669000, -271669000, 77, 271669000, 271669000, 80],
        [-271669860, -271669860, 79, 271669860, 271669860, 79],
        [-860, -860, 2, 860, 860, -1],
    )?;
    v.ask_all(&[
        [2, 3, 768398401, 0, 0, 0],
        [2, 3, 768398401, 0, 1, 0],
        [3, 2, 768398401, 1, 0, 0],
        [2, 3, 768498401, 0, 0, TOLERANCE],
        [2, 3, 768498401, 0, 1, TOLERANCE],
        [2, 3, 768398400, 0, 0, 0],
    ]);
    Ok(())
}

fn agreement() -> Result<(), Refusal> {
    small_squares()?;
    one_point()?;
    largest()?;
    large_square()?;
    large_and_one()?;
    large_less_one()
}

// ---- stations whose heights alone are unknown

// On a book of one unknown, with its correction: from, to, distance and tolerance, without heights.
fn levelled(book: Book, x: i64, rows: &[[i64; 4]])
    requires { sound book ≡ true }
{
    print_list(b"X", &[x]);
    print_list(b"M", &[DIAGONAL]);
    for row in rows {
        let [from, to, distance, tolerance] = *row;
        ask(
            book,
            &[x],
            &[DIAGONAL],
            [from, to, distance, 0, 0, tolerance],
        );
    }
}

// A list of just 32: 31 known stations at one point, and the last.
fn thirty_two() -> Result<(), Refusal> {
    let mut list = [1i64; 128];
    list[124] = 3;
    let b = height(opened(&list)?, 256, 32, 70)?;
    levelled(
        b,
        70,
        &[
            [1, 32, 70, 0],
            [32, 31, 70, 0],
            [1, 32, 1, 0],
            [30, 31, 1, 0],
            [32, 32, 70, 0],
            [1, 33, 70, 0],
            [33, 1, 70, 0],
        ],
    );
    Ok(())
}

// Held in E and N: 2,000 and 3,000, and 6,000 in U by the correction.
fn height_station() -> Result<(), Refusal> {
    let none = opened(&[1, 0, 0, 100000, 3, 2000, 3000, 105000])?;
    levelled(
        height(none, 1, 2, 6000)?,
        1000,
        &[
            [1, 2, 7000, 0],
            [2, 1, 7000, 0],
            [1, 2, 6999, 0],
            [1, 2, 6164, 1],
            [1, 2, 6164, 836],
            [1, 2, 6164, 835],
        ],
    );
    Ok(())
}

// ---- the check's own refusals

// In range; then 17, 3, and both.
fn asked_with(book: Book, x: &[i64], m: &[i64])
    requires { sound book ≡ true }
{
    print_list(b"X", x);
    print_list(b"M", m);
    for row in [
        [1, 2, 50, 0, 0, 0],
        [1, 2, 50, 0, 0, 50],
        [1, 1, 50, 0, 0, 0],
        [4, 1, 50, -1, 0, 0],
    ] {
        ask(book, x, m, row);
    }
}

// The corrections of `pairs`, but for the first.
fn correction(book: Book, x: i64)
    requires { sound book ≡ true }
{
    asked_with(book, &[x, -4, 3, 2, 2, -5], &inverse(DIAGONAL));
}

// An M of which the first entry is given.
fn matrix(book: Book, first: i64)
    requires { sound book ≡ true }
{
    asked_with(book, &[5, -4, 3, 2, 2, -5], &inverse(first));
}

fn short_of(book: Book)
    requires { sound book ≡ true }
{
    let x = [5, -4, 3, 2, 2, -5];
    let m = inverse(DIAGONAL);
    asked_with(book, &x[0..5], &m);
    asked_with(book, &x, &m[0..35]);
    asked_with(book, &[], &[]);
}

fn pairs() -> Result<(), Refusal> {
    let p = [25, 44, -3, 10, 10, 5];
    // 11: no records, and none to the second free station
    correction(three(p)?, 5);
    correction(baseline(three(p)?, 1, 2, [30, 40, 0])?, 5);
    let b = tied(p, [30, 40, 0, 12, 12, 0])?;
    correction(b, 5);
    short_of(b);
    // 12, 15, 16
    for x in [100001, LEAST, 100000, 6, 4] {
        correction(b, x);
    }
    // 13, 14
    for first in [17179869185, GREATEST, 17179869184, 0] {
        matrix(b, first);
    }
    Ok(())
}

fn cases() -> Result<(), Refusal> {
    values()?;
    agreement()?;
    thirty_two()?;
    height_station()?;
    pairs()
}

// An opening or an edit that is refused ends the output, by its number.
fn main() {
    if let Err(refusal) = cases() {
        io::write_all(1, b"refused ");
        io::print_decimal(1, u64::from(refusal));
        io::write_all(1, b"\n");
    }
}
