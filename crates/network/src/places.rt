// The places of a book in words: 256 records of 14 words, one after the other. Code that goes over the places is lent these words.
ghost use Rattle.std.specs.Prelude.{◌≡◌, ◌<◌, ◌≤◌, length};
ghost use Rattle.network.specs.Units.{place_count};
ghost use Rattle.network.specs.Records.{record_at};
ghost use Rattle.network.specs.Places.{places_length, places_in};

use super::{Place, Record, Unit, record_codec};

impl Place {
    // The length in words of all places.
    pub const LENGTH: usize = Unit::PLACES * Record::LENGTH;
}

// The record at place p, counted from 0, of lent places.
pub fn record_at(places: &[i64], p: usize) -> Record
    requires { (places_length ≤ length places.now) × (p < place_count) }
    ensures { result ≡ record_at (places_in places.now) p }
{
    record_codec::record_in(places, p * Record::LENGTH)
}

// The words of the places of a book by value, to lend.
pub fn place_words(places: [Place; Unit::PLACES]) -> [i64; Place::LENGTH]
    ensures { places_in result ≡ places }
{
    let mut w = [0i64; Place::LENGTH];
    for p in 0..Unit::PLACES {
        let v = record_codec::record_words(places[p].entry);
        lists::paste(&mut w, p * Record::LENGTH, &v);
    }
    w
}
