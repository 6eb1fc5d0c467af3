// Opens books on lent lists of stations and prints what came of it: the refusal and, of a book that opened, its stations and its number of unknowns.
#![tactic(auto)]

mod samples;
mod shown;

ghost use Rattle.std.specs.Prelude.{◌≡◌, true, [], ◌∷◌, ◌≤◌, take, IfOk};
ghost use Rattle.book.specs.Book.{opening, sound};
ghost use Rattle.book.specs.Outcomes.{opened_as};
ghost use Rattle.network.specs.StationWords.{flat};

use book::{Book, Refusal};
use network::Station;
use samples::{free, height, known, thirty_three};
use shown::show;

// A book on a list of two stations, made here and lent.
fn open_pair(a: Station, b: Station) -> Result<Book, Refusal>
    ensures opened { opened_as result ≡ opening (flat (a ∷ b ∷ [])) }
    ensures sound { IfOk result (λ k. sound k ≡ true) }
{
    stations::open_stations(&[a, b])
}

// A book on the first n of 33 stations: every length that a list may have, none, and one too many.
fn open_first(list: [Station; 33], n: usize) -> Result<Book, Refusal>
    requires { n ≤ 33 }
    ensures opened { opened_as result ≡ opening (flat (take n list)) }
    ensures sound { IfOk result (λ k. sound k ≡ true) }
{
    stations::open_stations(&list[..n])
}

fn pairs() {
    show(
        b"known and height, as document 01 prints them",
        open_pair(known(0, 0, 100000), height(0, 0, 101000)),
    );
    show(
        b"free and known",
        open_pair(free(-1, 2, -3), known(40, -50, 60)),
    );
    show(b"two known", open_pair(known(1, 2, 3), known(4, 5, 6)));
    show(
        b"E at the limit, N at the other",
        open_pair(known(500000000, -500000000, 0), free(0, 0, 0)),
    );
    show(
        b"E beyond the limit",
        open_pair(known(500000001, 0, 0), free(0, 0, 0)),
    );
    show(
        b"U beyond the limit in the last station",
        open_pair(known(0, 0, 0), free(0, 0, -500000001)),
    );
}

fn lengths() {
    let list = thirty_three();
    show(b"no stations", open_first(list, 0));
    show(b"a known one alone", open_first(list, 1));
    show(b"two of 33", open_first(list, 2));
    show(b"32 of 33", open_first(list, 32));
    show(b"all 33", open_first(list, 33));
}

fn main() {
    pairs();
    lengths();
}
