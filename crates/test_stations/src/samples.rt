// The stations that are lent.
ghost use Rattle.std.specs.Prelude.{◌<◌};

use network::{Kind, Station};

fn station(kind: Kind, east: i64, north: i64, up: i64) -> Station {
    Station {
        kind,
        east,
        north,
        up,
    }
}

pub(crate) fn known(east: i64, north: i64, up: i64) -> Station {
    station(Kind::Known, east, north, up)
}

pub(crate) fn free(east: i64, north: i64, up: i64) -> Station {
    station(Kind::Free, east, north, up)
}

pub(crate) fn height(east: i64, north: i64, up: i64) -> Station {
    station(Kind::Height, east, north, up)
}

// Station i of 33, each at coordinates of its own: a known one, 15 free ones, 3 of unknown height, and known ones; 48 unknowns in all.
fn sample(i: usize) -> Station
    requires { i < 33 }
{
    let east = i as i64;
    let north = !east;
    let up = (100 * i) as i64;
    let kind = match i {
        1..=15 => Kind::Free,
        16..=18 => Kind::Height,
        _ => Kind::Known,
    };
    station(kind, east, north, up)
}

// Those 33.
pub(crate) fn thirty_three() -> [Station; 33] {
    let mut list = [known(0, 0, 0); 33];
    for i in 0..33 {
        list[i] = sample(i);
    }
    list
}
