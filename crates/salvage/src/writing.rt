// The same scan, and what it writes: the fresh file and the two lists.
ghost use Rattle.std.specs.Prelude.{◌≡◌, true, [], ◌∷◌, ◌+◌, ◌*◌, ◌≤◌, ◌%◌, length};
ghost use Rattle.words.specs.Signed.{signed};
ghost use Rattle.words.specs.Runs.{words_at, put_words};
ghost use Rattle.files.specs.Entries.{entry_words};
ghost use Rattle.files.specs.Files.{file_words};
ghost use Rattle.salvage.specs.Salvage.{kept_starts, kept_entries, skipped_runs, run_between, kept_pairs, pair_words, salvage_counts, room_for};

use super::scanning::{STEP, right_at};
use files::FileEntry;

// The bytes of a pair of words in a list.
pub const PAIR_BYTES: usize = 16;

// Writes the thirteen words at byte `at` of a file as the entry that starts at byte `start` of a fresh one, with a new trailer.
fn copy_entry(file: &[u8], at: usize, fresh: &mut [u8], start: usize)
    requires { (at + 128 ≤ length file.now) × (start + 128 ≤ length fresh.old) × (start % 128 ≡ 0) }
    ensures { fresh.new ≡ put_words fresh.old start (entry_words start (words_at file.now at 13)) }
{
    let w = files::entry_words(file, at);
    files::write_entry(fresh, start, w);
}

// Puts a and b as the pair i of a list of pairs of words.
pub fn list_pair(list: &mut [u8], i: usize, a: usize, b: usize)
    requires { 16 * i + 16 ≤ length list.old }
    ensures { list.new ≡ put_words list.old (16 * i) (signed a ∷ signed b ∷ []) }
{
    words::put_word(list, PAIR_BYTES * i, words::to_signed(a as u64));
    words::put_word(list, PAIR_BYTES * i + 8, words::to_signed(b as u64));
}

// Puts the skipped run between bytes a and b, if there is one, as the pair i of a list; gives the count of pairs after it.
fn list_run(list: &mut [u8], i: usize, a: usize, b: usize) -> usize
    requires { 16 * i + 16 * length (run_between a b) ≤ length list.old }
    ensures { (result ≡ i + length (run_between a b)) × (list.new ≡ put_words list.old (16 * i) (pair_words (run_between a b))) }
{
    if a < b {
        list_pair(list, i, a, b - a);
        i + 1
    } else {
        i
    }
}

// Writes what a salvage keeps and the two lists.
pub fn write_salvaged(file: &[u8], fresh: &mut [u8], skipped: &mut [u8], kept: &mut [u8])
    requires { room_for (salvage_counts file.now) (length fresh.old) (length skipped.old) (length kept.old) ≡ true }
    ensures { (fresh.new ≡ put_words fresh.old 0 (file_words 0 (kept_entries file.now)))
        × (skipped.new ≡ put_words skipped.old 0 (pair_words (skipped_runs file.now)))
        × (kept.new ≡ put_words kept.old 0 (pair_words (kept_pairs 0 (kept_starts file.now)))) }
{
    let mut runs: usize = 0;
    let mut entries: usize = 0;
    let mut end: usize = 0;
    let mut at: usize = 0;
    // Stays: a step goes 128 bytes or 8, as in `salvage_counts`, which says why the two walks are not one.
    while file.len() - at >= FileEntry::BYTES {
        if right_at(file, at) {
            runs = list_run(skipped, runs, end, at);
            let start = FileEntry::BYTES * entries;
            list_pair(kept, entries, at, start);
            copy_entry(file, at, fresh, start);
            entries += 1;
            at += FileEntry::BYTES;
            end = at;
        } else {
            at += STEP;
        }
    }
    list_run(skipped, runs, end, file.len());
}
