// The sixteen words of an entry, tested.
ghost use Rattle.std.specs.Prelude.{◌≡◌, ◌+◌, ◌%◌, ◌≤◌, ◌&&◌, length, pos, int_le, slice_range};
ghost use Rattle.std.specs.List.{list_all};
ghost use Rattle.words.specs.Signed.{eq_z};
ghost use Rattle.words.specs.Runs.{words_at};
ghost use Rattle.files.specs.Entries.{kind_right, right_words, sum_of, previous_trailer, right_entry, linked_entry};
ghost use Rattle.files.specs.Files.{linked_at};

use super::{EntryKind, FileEntry};

// n words of w from index `from` on are 0.
fn zeros(w: &[i64], from: usize, n: usize) -> bool
    requires { from + n ≤ length w.now }
    ensures { result ≡ list_all (λ v. eq_z v (pos 0)) (slice_range w.now from (from + n)) }
{
    w[from..from + n].iter().all(|v| *v == 0)
}

fn kind_right(w: &[i64]) -> bool
    requires { 13 ≤ length w.now }
    ensures { result ≡ kind_right w.now }
{
    match EntryKind::try_from(w[0]) {
        Ok(EntryKind::Baseline) => true,
        Ok(EntryKind::HeightDifference) => zeros(w, 4, 2) && zeros(w, 7, 5),
        Ok(EntryKind::Strike) => zeros(w, 2, 11),
        Err(_) => false,
    }
}

// A place is numbered from 1 to 256.
pub fn is_place(place: i64) -> bool
    ensures { result ≡ (int_le (pos 1) place && int_le place (pos 256)) }
{
    (1..=FileEntry::PLACES).contains(&place)
}

fn right_words(w: &[i64]) -> bool
    requires { 13 ≤ length w.now }
    ensures { result ≡ right_words w.now }
{
    is_place(w[1]) && kind_right(w)
}

// The sum of all of w, modulo 2^64.
pub fn sum(w: &[i64]) -> i64
    ensures { result ≡ sum_of w.now }
{
    let mut s: u64 = 0;
    for v in w {
        s = s.wrapping_add(words::to_unsigned(*v));
    }
    words::to_signed(s)
}

// A right kind, place, zeros and sum.
pub fn right_entry(w: &[i64]) -> bool
    requires { length w.now ≡ 16 }
    ensures { result ≡ right_entry w.now }
{
    right_words(w) && w[15] == sum(&w[0..15])
}

// Where the trailer before the entry at byte `at` starts; -1 for the first.
// Stays: -1 is the word that a file has there (document 02), so an Option would be turned into it at once.
pub fn previous_trailer(at: usize) -> i64
    requires { at % 128 ≡ 0 }
    ensures { result ≡ previous_trailer at }
{
    if at == 0 {
        -1
    } else {
        words::to_signed((at - FileEntry::TRAILER_BYTES) as u64)
    }
}

// And a trailer that points to byte `at` and to the trailer before.
fn linked_entry(w: &[i64], at: usize) -> bool
    requires { (length w.now ≡ 16) × (at % 128 ≡ 0) }
    ensures { result ≡ linked_entry at w.now }
{
    right_entry(w) && w[13] == words::to_signed(at as u64) && w[14] == previous_trailer(at)
}

// The words of the entry that starts at byte `at`.
pub fn entry_words(file: &[u8], at: usize) -> [i64; 16]
    requires { at + 128 ≤ length file.now }
    ensures { result ≡ words_at file.now at 16 }
{
    let mut w = [0i64; 16];
    words::read_words(file, at, &mut w);
    w
}

pub fn linked_at(file: &[u8], at: usize) -> bool
    requires { (at + 128 ≤ length file.now) × (at % 128 ≡ 0) }
    ensures { result ≡ linked_at file.now at }
{
    let w = entry_words(file, at);
    linked_entry(&w, at)
}
