// Opening a book, and the calls that edit it: refusals in front of one core edit. A refusal gives the book back as it came.
ghost use Rattle.std.specs.Prelude.{◌≡◌, true, ◌<◌, IfOk};
ghost use Rattle.network.specs.Units.{place_count};
ghost use Rattle.network.specs.Records.{record_at};
ghost use Rattle.network.specs.Rules.{record_fits};
ghost use Rattle.book.specs.Book.{opened_book, opening, with_entry, outcome, sound};
ghost use Rattle.book.specs.Refusals.{answer_no};
ghost use Rattle.book.specs.Outcomes.{opened_as};

use super::{Book, Call, Change, Journal, Refusal, Reversal, refusals};
use network::{Network, Place, Record, Unit};
use normals::Normals;

impl Book {
    // No records, nothing to take back.
    fn blank(net: Network) -> Book
        ensures { result ≡ opened_book net }
    {
        let vacant = Place {
            entry: Record::Empty,
        };
        let free = Reversal {
            place: 0,
            prior: Record::Empty,
        };
        let normals = Normals::blank();
        Book {
            network: net,
            places: [vacant; Unit::PLACES],
            journal: Journal {
                entries: [free; Journal::SIZE],
                next: 0,
                count: 0,
            },
            normals,
        }
    }

    // A book on a list of numbers, four a station: kind (1 known, 2 free, 3 height), E, N, U.
    pub fn open(list: &[i64]) -> Result<Book, Refusal>
        ensures opened { opened_as result ≡ opening list.now }
        ensures sound { IfOk result (λ b. sound b ≡ true) }
    {
        if !network::opens(list) {
            return Err(Refusal::BadList);
        }
        Ok(Book::blank(network::network_of(list)))
    }

    // The record at a place, counted from 0; an empty one beyond the last.
    fn record_at(&self, i: usize) -> Record
        ensures { result ≡ record_at self.now.places i }
    {
        match self.places.get(i) {
            Some(place) => place.entry,
            None => Record::Empty,
        }
    }

    // The one core edit: r at place i, its share of N and u in, that of what the place held out, and the journal given.
    fn put(&mut self, i: usize, r: Record, journal: Journal)
        requires { (i < place_count) × (record_fits self.old.network r ≡ true) × (sound self.old ≡ true) }
        ensures { self.new ≡ with_entry self.old i r journal }
    {
        let network = self.network;
        let old = self.places[i].entry;
        self.places[i] = Place { entry: r };
        let normals = &mut self.normals;
        normals::exchange_shares(&mut normals.matrix, &mut normals.right, network, old, r);
        self.journal = journal;
    }

    // Changes a place.
    fn edit(&mut self, place: i64, change: Change) -> Result<(), Refusal>
        requires { sound self.old ≡ true }
        ensures outcome { record { refusal = answer_no result; book = self.new } ≡ outcome self.old (Call.Edit place change) }
        ensures sound { sound self.new ≡ true }
    {
        let i = words::index_in(place, Unit::PLACES);
        let current = self.record_at(i);
        refusals::judge_edit(self.network, place, change, current)?;
        let longer = self.journal.push(Reversal {
            place: i,
            prior: current,
        });
        let r = refusals::puts_of(change);
        self.put(i, r, longer);
        Ok(())
    }

    // Takes the latest edit back.
    fn undo(&mut self) -> Result<(), Refusal>
        requires { sound self.old ≡ true }
        ensures outcome { record { refusal = answer_no result; book = self.new } ≡ outcome self.old Call.Undo }
        ensures sound { sound self.new ≡ true }
    {
        if self.journal.count == 0 {
            return Err(Refusal::EmptyHistory);
        }
        let last = self.journal.last();
        let shorter = self.journal.pop();
        self.put(last.place, last.prior, shorter);
        Ok(())
    }

    // Makes the call, unless it is refused: then the book stays as it is.
    pub fn apply(&mut self, call: Call) -> Result<(), Refusal>
        requires { sound self.old ≡ true }
        ensures outcome { record { refusal = answer_no result; book = self.new } ≡ outcome self.old call }
        ensures sound { sound self.new ≡ true }
    {
        match call {
            Call::Edit(place, change) => self.edit(place, change),
            Call::Undo => self.undo(),
        }
    }
}
