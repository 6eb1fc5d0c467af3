// A damaged file salvaged into lent bytes.
ghost use Rattle.std.specs.Prelude.{◌≡◌, length};
ghost use Rattle.salvage.specs.Salvage.{room_for, salvage_answer, fresh_left, skipped_left, kept_left};

use super::SalvageCounts;
use super::scanning::salvage_counts;
use super::writing::{PAIR_BYTES, write_salvaged};
use files::{FileEntry, FileRefusal};

// Whether there is room for so much, in lent bytes of these lengths. By quotients, since a product could be too large.
fn room_for(n: SalvageCounts, fresh: usize, skipped: usize, kept: usize) -> bool
    ensures { result ≡ room_for n fresh skipped kept }
{
    (n.kept <= fresh / FileEntry::BYTES)
        & (n.skipped <= skipped / PAIR_BYTES)
        & (n.kept <= kept / PAIR_BYTES)
}

// Salvages what can be kept of bytes, any at all: a fresh file, the list of the runs skipped (start, length) and that of the entries kept (old start, new start), each pair two words.
// A refusal, where the lent room is too short, writes nothing.
pub fn salvage(
    damaged: &[u8],
    fresh: &mut [u8],
    skipped: &mut [u8],
    kept: &mut [u8],
) -> Result<SalvageCounts, FileRefusal>
    ensures { (result ≡ salvage_answer damaged.now (length fresh.old) (length skipped.old) (length kept.old))
        × (fresh.new ≡ fresh_left result damaged.now fresh.old)
        × (skipped.new ≡ skipped_left result damaged.now skipped.old)
        × (kept.new ≡ kept_left result damaged.now kept.old) }
{
    let n = salvage_counts(damaged);
    if !room_for(n, fresh.len(), skipped.len(), kept.len()) {
        return Err(FileRefusal::NoRoom);
    }
    write_salvaged(damaged, fresh, skipped, kept);
    Ok(n)
}
