// Files: the bytes by which books are exchanged, entries of sixteen 64-bit words, end to end, each with a trailer that points back. Nothing here knows what a book is.
//
// `entries` has one entry's words, `reading` whole files, `force` the entry in force of a night file and a day file, `writing` one entry written.
#![tactic(auto)]

ghost use Rattle.std.specs.Prelude.{◌≡◌};
ghost use Rattle.files.specs.Kinds.{kind_of};

mod entries;
mod force;
mod reading;
mod writing;

pub use entries::{entry_words, is_place, right_entry};
pub use force::{find, in_force};
pub use reading::holds_file;
pub use writing::write_entry;

// Why a call on files is refused.
#[derive(Clone, Copy)]
pub enum FileRefusal {
    BadPlace,
    NoRoom,
    Unreadable,
    NotCarried,
    NoEntry,
}

// Where the entry in force starts: at a byte of the night file or of the day file.
#[derive(Clone, Copy)]
pub enum EntryFound {
    InNight(usize),
    InDay(usize),
}

// What an entry says, by its first word.
#[derive(Clone, Copy)]
pub enum EntryKind {
    Baseline,
    HeightDifference,
    Strike,
}

// A word that is no kind.
#[derive(Clone, Copy)]
pub struct NoKind {}

impl TryFrom<i64> for EntryKind {
    type Error = NoKind;

    ghost try_from_gives = { λ word r. r ≡ kind_of word };

    fn try_from(word: i64) -> Result<EntryKind, NoKind> {
        match word {
            1 => Ok(EntryKind::Baseline),
            2 => Ok(EntryKind::HeightDifference),
            3 => Ok(EntryKind::Strike),
            _ => Err(NoKind {}),
        }
    }
}

// What document 02 fixes of an entry.
#[derive(Clone, Copy)]
pub struct FileEntry {}

impl FileEntry {
    // Its length in bytes, and that of its trailer, which is its last three words.
    pub const BYTES: usize = 128;

    pub const TRAILER_BYTES: usize = 24;

    // Places are numbered from 1 to this.
    pub const PLACES: i64 = 256;
}
