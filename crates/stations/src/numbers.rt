// A station's four numbers, and the opening on the numbers that stand first in an array.
ghost use Rattle.std.specs.Prelude.{◌≡◌, true, ◌++◌, ◌+◌, ◌*◌, ◌<◌, take, IfOk};
ghost use Rattle.network.specs.Units.{most_stations};
ghost use Rattle.book.specs.Book.{opening, sound};
ghost use Rattle.book.specs.Outcomes.{opened_as};
ghost use Rattle.network.specs.StationWords.{station_words};
ghost use Rattle.stations.specs.Flat.{read_count};

use book::{Book, Refusal};
use network::{Station, Unit};

// How many stations of n are read: none where they are more than a list may have, since no such list opens.
pub(crate) fn read_count(n: usize) -> usize
    ensures { result ≡ read_count n }
{
    if n <= Unit::STATIONS { n } else { 0 }
}

// The numbers of a full list, four a station.
pub(crate) const NUMBERS: usize = 4 * Unit::STATIONS;

// The station's four numbers after those of the i stations before it, each by its name, so that their order is read here; what stands
// beyond them is free.
pub(crate) fn put(out: &mut [i64; NUMBERS], i: usize, s: Station)
    requires { i < most_stations }
    ensures { take ((i + 1) * 4) out.new ≡ take (i * 4) out.old ++ station_words s }
{
    let [kind, east, north, up] = network::station_words(s);
    out[i * 4..i * 4 + 4].copy_from_slice(&[kind, east, north, up]);
}

// The opening on the first numbers of w: those of n stations, or none.
pub(crate) fn open_words(n: usize, w: [i64; NUMBERS]) -> Result<Book, Refusal>
    ensures opened { opened_as result ≡ opening (take (read_count n * 4) w) }
    ensures sound { IfOk result (λ b. sound b ≡ true) }
{
    let m = read_count(n) * 4;
    Book::open(&w[..m])
}
