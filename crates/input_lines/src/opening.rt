// The station list, and the book that it opens.
ghost use Rattle.std.specs.Prelude.{◌≡◌, true, not, ◌&&◌, ◌+◌, ◌≤◌, length, take};
ghost use Rattle.std.proofs.lemmas.List.Edits.{sets};
ghost use Rattle.book.specs.Refusals.{answer_no};
ghost use Rattle.layout.specs.Layout.{book_bytes};
ghost use Rattle.lent_edits.specs.LentEdits.{Opens};
ghost use Rattle.printing.specs.Rooms.{refused_room};
ghost use Rattle.text.specs.Writing.{Written};
ghost use Rattle.commands.specs.Commands.{is_station_line};
ghost use Rattle.network.specs.StationWords.{station_words};
ghost use Rattle.input_lines.specs.Runs.{list_room, opening_answer};
ghost use Rattle.input_lines.specs.States.{unopened_phase, opened_phase, ended_phase, phase_at, opened_with, Noted};

use super::{Phase, State};
use book::Refusal;
use network::{Station, Unit};

// Room for the words of 33 stations: more than 32 are refused, whatever they are.
pub const LIST_ROOM: usize = (Unit::STATIONS + 1) * 4;

// The four words of a station, stored at index at.
fn put_station(list: &mut [i64], at: usize, s: Station)
    requires { at + 4 ≤ length list.old }
    ensures { list.new ≡ sets list.old at (station_words s) }
{
    list[at..at + 4].copy_from_slice(&network::station_words(s));
}

// The words of a station after those at the front of the list, where there is room; how many there are then.
pub(crate) fn note_station(list: &mut [i64], words: usize, s: Station) -> usize
    requires { (list_room ≤ length list.old) × (words ≤ list_room) }
    ensures { Noted list.old words s result list.new }
{
    if words + 4 <= LIST_ROOM {
        put_station(list, words, s);
        return words + 4;
    }
    words
}

pub(crate) fn is_unopened(state: State) -> bool
    ensures { result ≡ unopened_phase state.phase }
{
    state.phase == Phase::Unopened
}

pub fn is_opened(state: State) -> bool
    ensures { result ≡ opened_phase state.phase }
{
    state.phase == Phase::Opened
}

pub fn is_ended(state: State) -> bool
    ensures { result ≡ ended_phase state.phase }
{
    state.phase == Phase::Ended
}

// The state after an opening that was answered so.
pub(crate) fn opened(state: State, answer: Result<(), Refusal>) -> State
    ensures { result ≡ opened_with state (answer_no answer) }
{
    State {
        phase: phase_at(answer),
        ..state
    }
}

fn phase_at(answer: Result<(), Refusal>) -> Phase
    ensures { result ≡ phase_at (answer_no answer) }
{
    match answer {
        Ok(()) => Phase::Opened,
        Err(_) => Phase::Ended,
    }
}

// Whether a line opens the book: the first whose first field is not S.
pub(crate) fn opens_at(state: State, line: &[u8]) -> bool
    ensures { result ≡ (unopened_phase state.phase && not (is_station_line line.now)) }
{
    is_unopened(state) & !commands::is_station_line(line)
}

// Opens a book on the stations at the front of the list, and writes it unless it is refused.
pub fn open_list(list: &[i64], words: usize, book: &mut [u8]) -> Result<(), Refusal>
    requires { (words ≤ length list.now) × (book_bytes ≤ length book.old) }
    ensures { Opens (take words list.now) book.old (answer_no result) book.new }
{
    lent_edits::open(&list[..words], book)
}

// What an opening prints.
pub(crate) fn write_opening(out: &mut [u8], at: usize, answer: Result<(), Refusal>) -> usize
    requires { at + refused_room ≤ length out.old }
    ensures written { Written out.old at (opening_answer (answer_no answer)) result out.new }
    ensures upper_bound { result ≤ at + refused_room }
{
    match answer {
        Ok(()) => at,
        Err(refusal) => printing::write_refused(out, at, u64::from(refusal)),
    }
}
