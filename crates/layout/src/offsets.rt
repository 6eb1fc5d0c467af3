// Where each part of a book begins, counted in words from 0, and the lengths. Layout.antt has the same names, docs/BOOK.md the same table.
use book::Journal;
use network::{Record, Unit};
use normals::Normals;

#[derive(Clone, Copy)]
pub struct Layout {}

impl Layout {
    // The layout's number, the first word of a book.
    pub const NUMBER: i64 = 3;

    // The words of a slot of the journal: the place, and the record to restore.
    pub const REVERSAL_LENGTH: usize = 1 + Record::LENGTH;

    // The words of a station, and of the station list.
    pub const STATION_LENGTH: usize = 4;

    pub const STATIONS_LENGTH: usize = Unit::STATIONS * Layout::STATION_LENGTH;

    // The station list follows the layout's number and the station count.
    pub const STATIONS_START: usize = 2;

    pub const PLACES_START: usize = Layout::STATIONS_START + Layout::STATIONS_LENGTH;
    // The journal's counters: next, then count.
    pub const COUNTS_START: usize = Layout::PLACES_START + Unit::PLACES * Record::LENGTH;

    pub const ENTRIES_START: usize = Layout::COUNTS_START + 2;
    // N, then u.
    pub const MATRIX_START: usize = Layout::ENTRIES_START + Journal::SIZE * Layout::REVERSAL_LENGTH;

    pub const RIGHT_START: usize = Layout::MATRIX_START + Normals::ENTRIES;

    // A book, in words and in bytes.
    pub const BOOK_LENGTH: usize = Layout::RIGHT_START + Normals::ROW;

    pub const BOOK_BYTES: usize = 8 * Layout::BOOK_LENGTH;
}
