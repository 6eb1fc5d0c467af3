// One record as the words of an entry, and an entry as the call that it asks for.
ghost use Rattle.std.specs.Prelude.{◌≡◌, ◌&&◌, ◌<◌, pos, take};
ghost use Rattle.words.specs.Signed.{eq_z};
ghost use Rattle.network.specs.Units.{place_count};
ghost use Rattle.book_files.specs.Writing.{carried, record_entry};
ghost use Rattle.book_files.specs.Entering.{record_words_in, call_in};

use book::{Call, Change};
use files::EntryKind;
use network::{Baseline, Record};

// Both antenna heights are 0.
fn from_mark_to_mark(b: Baseline) -> bool
    ensures { result ≡ (eq_z b.hf (pos 0) && eq_z b.ht (pos 0)) }
{
    b.hf == 0 && b.ht == 0
}

// Whether a file can carry a record.
pub fn is_carried(r: Record) -> bool
    ensures { result ≡ carried r }
{
    match r {
        Record::Empty => true,
        Record::Baseline(b) => from_mark_to_mark(b),
        Record::Height(_) => true,
        Record::Position(_) => false,
    }
}

// The words of the entry of a record at a place, counted from 0; its trailer's are 0 yet.
pub fn entry_of(p: usize, r: Record) -> [i64; 16]
    requires { p < place_count }
    ensures { take 13 result ≡ record_entry p r }
{
    let w = network::record_words(r);
    let place = (p + 1) as i64;
    [
        w[0], place, w[1], w[2], w[3], w[4], w[5], w[6], w[7], w[8], w[9], w[10], w[11], 0, 0, 0,
    ]
}

// The words of the record that an entry gives, as a book has them.
fn record_words_in(w: [i64; 16]) -> [i64; Record::LENGTH]
    ensures { result ≡ record_words_in w }
{
    [
        w[0], w[2], w[3], w[4], w[5], w[6], w[7], w[8], w[9], w[10], w[11], w[12], 0, 0,
    ]
}

// Whether a first word says that an entry is a strike.
fn is_strike(kind: i64) -> bool
    ensures { result ≡ eq_z kind (pos 3) }
{
    match EntryKind::try_from(kind) {
        Ok(EntryKind::Strike) => true,
        Ok(EntryKind::Baseline) => false,
        Ok(EntryKind::HeightDifference) => false,
        Err(_) => false,
    }
}

// The call that the first thirteen words of an entry ask for.
pub fn call_in(w: [i64; 16]) -> Call
    ensures { result ≡ call_in w }
{
    let place = w[1];
    if is_strike(w[0]) {
        return Call::Edit(place, Change::Strike);
    }
    let v = record_words_in(w);
    let r = network::record_in(&v, 0);
    Call::Edit(place, Change::Enter(r))
}
