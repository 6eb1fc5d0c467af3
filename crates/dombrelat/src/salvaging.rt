// The C call that salvages a damaged file.
ghost use Rattle.std.specs.Prelude.{◌≡◌, [], ◌∷◌, ◌≤◌, length, pos};
ghost use Rattle.words.specs.Signed.{signed};
ghost use Rattle.words.specs.Runs.{put_words};
ghost use Rattle.dombrelat.specs.SalvageCall.{salvaged_word, counts_left, salvage_call};

use super::NO_ROOM;
use files::FileRefusal;
use salvage::SalvageCounts;

// The bytes of the two words that count.
const COUNTS_BYTES: usize = 16;

// Puts the counts of a salvage, skipped runs first.
fn put_salvage_counts(n: SalvageCounts, counts: &mut [u8]) -> i64
    requires { 16 ≤ length counts.old }
    ensures { (result ≡ pos 0) × (counts.new ≡ put_words counts.old 0 (signed n.skipped ∷ signed n.kept ∷ [])) }
{
    salvage::list_pair(counts, 0, n.skipped, n.kept);
    0
}

fn give_salvaged(s: Result<SalvageCounts, FileRefusal>, counts: &mut [u8]) -> i64
    requires { 16 ≤ length counts.old }
    ensures { (result ≡ salvaged_word s) × (counts.new ≡ counts_left s counts.old) }
{
    match s {
        Ok(n) => put_salvage_counts(n, counts),
        Err(refusal) => i64::from(refusal),
    }
}

// Salvages what can be kept of a damaged file: a fresh file, the list of skipped runs, that of kept entries, and how many there are of each.
#[unsafe(no_mangle)]
pub extern "C" fn dombrelat_salvage(
    damaged: &[u8],
    fresh: &mut [u8],
    skipped: &mut [u8],
    kept: &mut [u8],
    counts: &mut [u8],
) -> i64
    ensures value { result ≡ (salvage_call damaged.now fresh.old skipped.old kept.old counts.old).answer }
    ensures fresh_after { fresh.new ≡ (salvage_call damaged.now fresh.old skipped.old kept.old counts.old).fresh }
    ensures skipped_after { skipped.new ≡ (salvage_call damaged.now fresh.old skipped.old kept.old counts.old).skipped }
    ensures kept_after { kept.new ≡ (salvage_call damaged.now fresh.old skipped.old kept.old counts.old).kept }
    ensures counts_after { counts.new ≡ (salvage_call damaged.now fresh.old skipped.old kept.old counts.old).counts }
{
    if counts.len() < COUNTS_BYTES {
        return NO_ROOM;
    }
    let s = salvage::salvage(damaged, fresh, skipped, kept);
    give_salvaged(s, counts)
}
