// Random calls from a fixed seed, out of range now and then, so that every refusal comes up that can.
ghost use Rattle.std.specs.Prelude.{◌<◌};

use network::Record;

// A known station, three free ones and two height ones.
pub(crate) fn list() -> [i64; 24] {
    [
        1, 0, 0, 100000, 2, 0, 0, 101000, 2, 500, 300, 100500, 2, 0, 1000, 100000, 3, 0, 0, 101000,
        3, 700, 0, 99000,
    ]
}

// A linear congruential generator.
pub(crate) fn next(s: u64) -> u64
    ensures { result < 2147483647 }
{
    (s % 2147483647) * 16807 % 2147483647
}

// Kinds of call.
#[derive(Clone, Copy)]
pub(crate) enum Kind {
    Enter,
    Strike,
    Undo,
}

// Of ten calls six enter, two strike and two undo.
pub(crate) fn kind_of(s: u64) -> Kind {
    match s / 7 % 10 {
        0..=5 => Kind::Enter,
        6..=7 => Kind::Strike,
        _ => Kind::Undo,
    }
}

// low to low + n - 1.
fn above(s: u64, n: u32, low: i32) -> i64
    requires { 0 < n }
{
    (s % u64::from(n)) as i64 + i64::from(low)
}

// Mostly 0 to 60, now and then 250 to 259.
pub(crate) fn place(s: u64) -> i64 {
    if s % 11 == 0 {
        above(s / 11, 10, 250)
    } else {
        above(s / 11, 61, 0)
    }
}

pub(crate) fn level() -> Record {
    network::height_of(1, 2, 1000, 100)
}

fn height(s: u64) -> Record {
    let from = above(s, 8, 0);
    let to = above(s / 8, 7, 1);
    let up = above(s / 100, 104000, -1000);
    let weight = above(s / 3000, 10100, 0);
    network::height_of(from, to, up, weight)
}

// The weights of a baseline or a position.
fn weights(s: u64) -> [i64; 6] {
    let ee = above(s / 70, 200, 90);
    let en = above(s / 80, 240, -120);
    let eu = above(s / 90, 60, -30);
    let nn = above(s / 110, 300, 80);
    let nu = above(s / 130, 80, -40);
    let uu = above(s / 170, 10400, 70);
    [ee, en, eu, nn, nu, uu]
}

fn baseline(s: u64) -> Record {
    let from = above(s, 6, 1);
    let to = above(s / 6, 7, 0);
    let east = above(s / 40, 101000, 0);
    let north = above(s / 50, 3000, -1500);
    let up = above(s / 60, 5000, 0);
    let hf = above(s / 190, 6000, -200);
    let ht = above(s / 230, 6000, 0);
    network::baseline_of(from, to, [east, north, up], weights(s), [hf, ht])
}

fn position(s: u64) -> Record {
    let station = above(s, 8, 0);
    let east = above(s / 10, 102000, -1000);
    let north = above(s / 50, 3000, -1500);
    let up = above(s / 60, 5000, 98000);
    network::position_of(station, [east, north, up], weights(s))
}

pub(crate) fn entry(s: u64) -> Record {
    match s % 50 {
        0 => Record::Empty,
        1..=16 => height(s / 50),
        17..=33 => baseline(s / 50),
        _ => position(s / 50),
    }
}
