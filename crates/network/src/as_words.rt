// A station in four words: kind (1 known, 2 free, 3 height), E, N, U.
ghost use Rattle.std.specs.Prelude.{◌≡◌};
ghost use Rattle.network.specs.StationWords.{kind_word, station_words};

use super::{Kind, Station};

#[tactic(auto, unfolding(crate::specs::StationWords::kind_word))]
// Stays: its definition `kind_word` is cited by name wherever a station's words are spelled; `i64::from` would be no plainer.
pub fn kind_word(kind: Kind) -> i64
    ensures { result ≡ kind_word kind }
{
    match kind {
        Kind::Known => 1,
        Kind::Free => 2,
        Kind::Height => 3,
    }
}

#[tactic(auto, unfolding(crate::specs::StationWords::station_words))]
pub fn station_words(s: Station) -> [i64; 4]
    ensures { result ≡ station_words s }
{
    [kind_word(s.kind), s.east, s.north, s.up]
}
