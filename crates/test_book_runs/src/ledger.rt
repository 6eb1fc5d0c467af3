// Document 01's plain ledger in code: the standing edits in order. It knows nothing of a book.
use super::samples::Kind;
use network::{Place, Record};

// What an edit put where: the place is counted from 0.
#[derive(Clone, Copy)]
struct Edit {
    at: usize,
    puts: Record,
}

#[derive(Clone, Copy)]
pub struct Ledger {
    edits: [Edit; 400],
    count: usize,
}

impl Ledger {
    pub(crate) fn new() -> Ledger {
        let none = Edit {
            at: 0,
            puts: Record::Empty,
        };
        Ledger {
            edits: [none; 400],
            count: 0,
        }
    }

    // An edit goes to the end of the list.
    fn append(&mut self, place: i64, puts: Record) {
        if self.count < 400 {
            let at = words::index_in(place, 256);
            self.edits[self.count] = Edit { at, puts };
            self.count += 1;
        }
    }

    // Follows a call of a kind that was accepted: an undo takes the last edit off.
    pub(crate) fn follow(&mut self, kind: Kind, place: i64, entry: Record) {
        match kind {
            Kind::Enter => self.append(place, entry),
            Kind::Strike => self.append(place, Record::Empty),
            Kind::Undo => self.count = self.count.saturating_sub(1),
        }
    }

    // The records, from scratch.
    pub(crate) fn places(&self) -> [Place; 256] {
        let vacant = Place {
            entry: Record::Empty,
        };
        let mut places = [vacant; 256];
        for edit in self.edits.iter().take(self.count) {
            if let Some(place) = places.get_mut(edit.at) {
                *place = Place { entry: edit.puts };
            }
        }
        places
    }
}

pub(crate) fn same_places(a: [Place; 256], b: [Place; 256]) -> bool {
    network::place_words(a) == network::place_words(b)
}

// How many places are filled.
pub(crate) fn filled(places: [Place; 256]) -> u64 {
    places
        .iter()
        .filter(|p| !network::is_empty(p.entry))
        .count() as u64
}
