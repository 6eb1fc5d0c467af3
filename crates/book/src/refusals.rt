// What the calls that edit are refused for: the lowest number of the table wins. No test for 9 is needed: it never comes.
ghost use Rattle.std.specs.Prelude.{◌≡◌, true, ◌≤◌, pos};
ghost use Rattle.network.specs.Units.{most_stations};
ghost use Rattle.network.specs.Stations.{coordinates_fit};
ghost use Rattle.book.specs.Calls.{first, place_no, puts};
ghost use Rattle.book.specs.Numbers.{change_no_of};
ghost use Rattle.book.specs.Refusals.{answer_no, refusal_no};
ghost use Rattle.book.specs.declared.Refusal.TheVariants.{BadRecord};

use super::{Change, Refusal};
use network::{Network, Record, RecordRefusal, Unit};

impl From<Refusal> for u64 {
    ghost from_gives = { λ refusal n. n ≡ refusal_no refusal };

    fn from(refusal: Refusal) -> u64 {
        match refusal {
            Refusal::BadList => 1,
            Refusal::BadPlace => 2,
            Refusal::BadRecord(record) => u64::from(record),
            Refusal::EmptyPlace => 7,
            Refusal::EmptyHistory => 8,
        }
    }
}

impl From<RecordRefusal> for Refusal {
    ghost from_gives = { λ given refusal. refusal ≡ BadRecord given };

    fn from(refusal: RecordRefusal) -> Refusal {
        Refusal::BadRecord(refusal)
    }
}

// The word that stands for the answer of an opening or an edit: the refusal's number, 0 where it is not refused.
pub fn call_word(answer: Result<(), Refusal>) -> i64
    ensures { result ≡ pos (answer_no answer) }
{
    match answer {
        Ok(()) => 0,
        Err(refusal) => u64::from(refusal) as i64,
    }
}

// Judges a change to a place that holds `current`: an enter goes by the record that it gives, a strike by what it finds.
fn judge_change(net: Network, change: Change, current: Record) -> Result<(), Refusal>
    requires { (net.count ≤ most_stations) × (coordinates_fit net.stations ≡ true) }
    ensures { answer_no result ≡ change_no_of net current change }
{
    match change {
        Change::Enter(r) => Ok(network::judge_record(net, r)?),
        Change::Strike if network::is_empty(current) => Err(Refusal::EmptyPlace),
        Change::Strike => Ok(()),
    }
}

// Judges an edit of a place that holds `current`.
pub fn judge_edit(net: Network, place: i64, change: Change, current: Record) -> Result<(), Refusal>
    requires { (net.count ≤ most_stations) × (coordinates_fit net.stations ≡ true) }
    ensures { answer_no result ≡ first (place_no place) (change_no_of net current change) }
{
    if !(1..=Unit::PLACES as i64).contains(&place) {
        return Err(Refusal::BadPlace);
    }
    judge_change(net, change, current)
}

// The record that an accepted change puts at its place.
pub fn puts_of(change: Change) -> Record
    ensures { result ≡ puts change }
{
    match change {
        Change::Enter(r) => r,
        Change::Strike => Record::Empty,
    }
}
