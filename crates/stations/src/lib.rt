// The thin reader over a lent slice of station structs: it lays the stations' numbers out flat and opens the book on them.
// What can be done on plain numbers is done in `numbers`.
#![tactic(auto)]

mod numbers;

ghost use Rattle.std.specs.Prelude.{◌≡◌, true, ◌*◌, length, take, IfOk};
ghost use Rattle.book.specs.Book.{opening, sound};
ghost use Rattle.book.specs.Outcomes.{opened_as};
ghost use Rattle.network.specs.StationWords.{flat};
ghost use Rattle.stations.specs.Flat.{read_count};

use book::{Book, Refusal};
use network::Station;
use numbers::{NUMBERS, open_words, put, read_count};

// The flat numbers of the stations that are read stand first; the rest is free.
fn flat_words(list: &[Station]) -> [i64; NUMBERS]
    ensures { take (read_count (length list.now) * 4) result ≡ flat (take (read_count (length list.now)) list.now) }
{
    let n = read_count(list.len());
    let mut out = [0; NUMBERS];
    for i in 0..n {
        put(&mut out, i, list[i]);
    }
    out
}

// A book on a lent list of stations: what `Book::open` gives on the list's flat numbers.
pub fn open_stations(list: &[Station]) -> Result<Book, Refusal>
    ensures opened { opened_as result ≡ opening (flat list.now) }
    ensures sound { IfOk result (λ b. sound b ≡ true) }
{
    let w = flat_words(list);
    open_words(list.len(), w)
}
