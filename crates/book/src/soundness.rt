// What 25 tests of a book's value, for every value: the station list first, then the records, the journal and what it would restore, each judged by the
// rules, and N and u last, since their sums are in range only for records by the rules.
ghost use Rattle.std.specs.Prelude.{◌≡◌, ◌||◌, ◌<◌, ◌≤◌, ltb, length, get_or};
ghost use Rattle.lists.specs.All.{all_below};
ghost use Rattle.network.specs.Units.{place_count};
ghost use Rattle.network.specs.Records.{record_at, is_empty};
ghost use Rattle.network.specs.Rules.{record_fits};
ghost use Rattle.network.specs.Places.{places_length, places_in};
ghost use Rattle.book.specs.Journal.{journal_size, age, free, is_free, in_use, journal_fits, reversals};
ghost use Rattle.book.specs.Book.{undoable, sound};
ghost use Rattle.book.specs.Empties.{empties, undoable_by};
ghost use Rattle.book.specs.RulesFit.{rules_fit};

use super::history::slot_age;
use super::rules::Rules;
use super::{Book, Journal, Reversal, slot_before};
use network::{Network, Unit};

fn is_free(u: Reversal) -> bool
    ensures { result ≡ is_free u }
{
    u.place == 0 && network::is_empty(u.prior)
}

// A slot is in use, or it is free.
fn slot_fits(next: usize, count: usize, slot: usize, u: Reversal) -> bool
    requires { (next < journal_size) × (slot < journal_size) }
    ensures { result ≡ (ltb (age next slot) count || is_free u) }
{
    slot_age(next, slot) < count || is_free(u)
}

fn slots_fit(journal: Journal) -> bool
    requires { journal.next < journal_size }
    ensures { result ≡ all_below journal_size (λ slot. in_use journal slot || is_free (get_or journal.entries slot free)) }
{
    for slot in 0..Journal::SIZE {
        if !slot_fits(journal.next, journal.count, slot, journal.entries[slot]) {
            return false;
        }
    }
    true
}

fn journal_fits(journal: Journal) -> bool
    ensures { result ≡ journal_fits journal }
{
    if journal.next >= Journal::SIZE || journal.count > Journal::SIZE {
        return false;
    }
    slots_fit(journal)
}

fn records_fit(rules: &Rules, places: &[i64]) -> bool
    requires { places_length ≤ length places.now }
    ensures { result ≡ all_below place_count (λ p. record_fits rules.now.network (record_at (places_in places.now) p)) }
{
    for p in 0..Unit::PLACES {
        let r = network::record_at(places, p);
        if !rules.fit(r) {
            return false;
        }
    }
    true
}

// Which places are empty.
fn empties_in(places: &[i64]) -> [bool; Unit::PLACES]
    requires { places_length ≤ length places.now }
    ensures { result ≡ empties (places_in places.now) }
{
    let mut empty = [false; Unit::PLACES];
    for p in 0..Unit::PLACES {
        let r = network::record_at(places, p);
        empty[p] = network::is_empty(r);
    }
    empty
}

// The journal walked back. Of the places it changes no more than which are empty: nothing else of what they hold is looked at.
fn walks_back(rules: &Rules, empty: [bool; Unit::PLACES], journal: Journal) -> bool
    requires { journal.next < journal_size }
    ensures { result ≡ undoable_by rules.now.network empty (reversals journal) }
{
    let mut state = empty;
    let mut slot = journal.next;
    for taken in 0..journal.count {
        slot = slot_before(slot);
        let u = journal.entries[slot];
        if u.place >= Unit::PLACES {
            return false;
        }
        if !rules.restores(state[u.place], u.prior) {
            return false;
        }
        state[u.place] = network::is_empty(u.prior);
    }
    true
}

// Each edit of the journal can be taken back.
fn can_undo(rules: &Rules, places: &[i64], journal: Journal) -> bool
    requires { (places_length ≤ length places.now) × (journal.next < journal_size) }
    ensures { result ≡ undoable rules.now.network (record_at (places_in places.now)) (reversals journal) }
{
    let empty = empties_in(places);
    walks_back(rules, empty, journal)
}

// The station list, the records and the journal are by the rules. They come apart, the places lent, so that a caller that has no book yet need not put one together.
pub fn rules_fit(network: Network, places: &[i64], journal: Journal) -> bool
    requires { places_length ≤ length places.now }
    ensures { result ≡ rules_fit network (places_in places.now) journal }
{
    let Some(rules) = Rules::of(network) else {
        return false;
    };
    if !records_fit(&rules, places) {
        return false;
    }
    if !journal_fits(journal) {
        return false;
    }
    can_undo(&rules, places, journal)
}

// A book passes what 25 tests.
pub fn is_sound(book: Book) -> bool
    ensures { result ≡ sound book }
{
    let places = network::place_words(book.places);
    rules_fit(book.network, &places, book.journal)
        && normals::are_of(
            book.network,
            &places,
            &book.normals.matrix,
            &book.normals.right,
        )
}
