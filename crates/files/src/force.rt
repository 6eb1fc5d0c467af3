// The entry in force of a night file and a day file, as a part of whichever holds it.
ghost use Rattle.std.specs.Prelude.{◌≡◌, ◌+◌, ◌≤◌, [], length, take, drop, pos};
ghost use Rattle.files.specs.Force.{file_number, force_in, in_force, shown, lies_at, Inside};

use super::entries::is_place;
use super::reading::{holds_file, latest_entry};
use super::{EntryFound, FileEntry, FileRefusal};

// The number of a refusal.
impl From<FileRefusal> for i64 {
    ghost from_gives = { λ refusal n. n ≡ pos (file_number refusal) };

    fn from(refusal: FileRefusal) -> i64 {
        match refusal {
            FileRefusal::BadPlace => 2,
            FileRefusal::NoRoom => 10,
            FileRefusal::Unreadable => 18,
            FileRefusal::NotCarried => 19,
            FileRefusal::NoEntry => 20,
        }
    }
}

// The latest entry of the night file, else of the day file.
fn latest_of_two(night: &[u8], day: &[u8], place: i64) -> Result<EntryFound, FileRefusal>
    ensures { result ≡ force_in night.now day.now place }
{
    match latest_entry(night, place) {
        Some(at) => Ok(EntryFound::InNight(at)),
        None => match latest_entry(day, place) {
            Some(at) => Ok(EntryFound::InDay(at)),
            None => Err(FileRefusal::NoEntry),
        },
    }
}

// Where the entry in force for a place is, or why there is none.
pub fn find(night: &[u8], day: &[u8], place: i64) -> Result<EntryFound, FileRefusal>
    ensures { result ≡ in_force night.now day.now place }
{
    if !is_place(place) {
        return Err(FileRefusal::BadPlace);
    }
    if !(holds_file(night) && holds_file(day)) {
        return Err(FileRefusal::Unreadable);
    }
    latest_of_two(night, day, place)
}

// The 128 bytes of a file from `at` on.
fn entry_part(file: &[u8], at: usize) -> &[u8]
    requires { at + 128 ≤ length file.now }
    ensures { (result.now ≡ take 128 (drop at file.now)) × (result.ref_ptr ≡ (file.entry.ref_ptr.0, at + file.entry.ref_ptr.1)) }
{
    let end = at + FileEntry::BYTES;
    &file[at..end]
}

// No bytes, at the start of a file.
fn empty_part(file: &[u8]) -> &[u8]
    ensures { (result.now ≡ []) × (result.ref_ptr ≡ file.entry.ref_ptr) }
{
    &file[0..0]
}

fn part<'a>(night: &'a [u8], day: &'a [u8], found: Result<EntryFound, FileRefusal>) -> &'a [u8]
    requires { Inside found (length night.now) (length day.now) }
    ensures { (result.now ≡ shown found night.now day.now) × (result.ref_ptr ≡ lies_at found night.entry.ref_ptr day.entry.ref_ptr) }
{
    match found {
        Ok(EntryFound::InNight(at)) => entry_part(night, at),
        Ok(EntryFound::InDay(at)) => entry_part(day, at),
        Err(_) => empty_part(night),
    }
}

// The entry in force for a place: 128 bytes of the file that holds it, or no bytes where the call is refused; `find` has the refusal.
pub fn in_force<'a>(night: &'a [u8], day: &'a [u8], place: i64) -> &'a [u8]
    ensures { (result.now ≡ shown (in_force night.now day.now place) night.now day.now)
        × (result.ref_ptr ≡ lies_at (in_force night.now day.now place) night.entry.ref_ptr day.entry.ref_ptr) }
{
    let found = find(night, day, place);
    part(night, day, found)
}
