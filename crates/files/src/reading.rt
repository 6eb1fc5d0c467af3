// Whole files, read from the last byte back.
ghost use Rattle.std.specs.Prelude.{◌≡◌, ◌<◌, length, MatchOption};
ghost use Rattle.files.specs.Files.{reads, latest_entry};

use super::FileEntry;
use super::entries::linked_at;

// Whether bytes, any at all, read as a file.
pub fn holds_file(file: &[u8]) -> bool
    ensures { result ≡ reads file.now }
{
    if file.len() % FileEntry::BYTES != 0 {
        return false;
    }
    for n in (0..file.len() / FileEntry::BYTES).rev() {
        if !linked_at(file, FileEntry::BYTES * n) {
            return false;
        }
    }
    true
}

// The start of the latest entry for a place.
pub fn latest_entry(file: &[u8], place: i64) -> Option<usize>
    ensures { MatchOption result (latest_entry file.now place ≡ length file.now) (λ at. (at ≡ latest_entry file.now place) × (at < length file.now)) }
{
    for n in (0..file.len() / FileEntry::BYTES).rev() {
        let at = FileEntry::BYTES * n;
        if words::word_at(file, at + 8) == place {
            return Some(at);
        }
    }
    None
}
