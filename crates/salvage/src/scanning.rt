// The scan forward over a damaged file, and how much it keeps and skips.
ghost use Rattle.std.specs.Prelude.{◌≡◌, ◌+◌, ◌≤◌, length};
ghost use Rattle.files.specs.Files.{right_at};
ghost use Rattle.salvage.specs.Salvage.{run_between, salvage_counts};

use super::SalvageCounts;
use files::{EntryKind, FileEntry};

// The scan goes forward by so many bytes where it keeps nothing.
pub const STEP: usize = 8;

// The 128 bytes from byte `at` on have a right kind, place, zeros and sum. Most bytes that are no entry have no right kind, so that one word tells.
pub fn right_at(file: &[u8], at: usize) -> bool
    requires { at + 128 ≤ length file.now }
    ensures { result ≡ right_at file.now at }
{
    let kind = EntryKind::try_from(words::word_at(file, at));
    if kind.is_err() {
        return false;
    }
    let w = files::entry_words(file, at);
    files::right_entry(&w)
}

// How many skipped runs lie between bytes a and b, with nothing kept between them.
fn run_count(a: usize, b: usize) -> usize
    ensures { result ≡ length (run_between a b) }
{
    if a < b { 1 } else { 0 }
}

// What a salvage of these bytes skips and keeps.
pub fn salvage_counts(file: &[u8]) -> SalvageCounts
    ensures { result ≡ salvage_counts file.now }
{
    let mut skipped: usize = 0;
    let mut kept: usize = 0;
    let mut end: usize = 0;
    let mut at: usize = 0;
    // Stays: a step goes 128 bytes or 8, by what is found, so that no `for` over a range or over chunks gives these starts.
    // Stays: this walk and that of `write_salvaged` are no plainer as one: it would be generic over a trait whose laws state both invariants, `CountedTo` and `WrittenTo`, on a struct that holds three lent slices.
    while file.len() - at >= FileEntry::BYTES {
        if right_at(file, at) {
            skipped += run_count(end, at);
            kept += 1;
            at += FileEntry::BYTES;
            end = at;
        } else {
            at += STEP;
        }
    }
    skipped += run_count(end, file.len());
    SalvageCounts { skipped, kept }
}
