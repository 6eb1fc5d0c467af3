// A line read: what it asks, and the state with its station, corrections or matrix noted.
ghost use Rattle.std.specs.Prelude.{suc, ◌≡◌, ◌≤◌, ◌<◌, length};
ghost use Rattle.commands.specs.Brings.{corrections, matrix};
ghost use Rattle.input_lines.specs.Runs.{most_lines, list_room, read_after};
ghost use Rattle.commands.specs.Commands.{most_corrections, most_entries};
ghost use Rattle.input_lines.specs.States.{given_length, given_count, WordsNoted, Reads};

use super::{LineRead, State, opening};
use commands::Command;

// The station of an S line, after those in the list.
fn note_words(list: &mut [i64], words: usize, command: Command) -> usize
    requires { (list_room ≤ length list.old) × (words ≤ list_room) }
    ensures { WordsNoted list.old words command result list.new }
{
    if let Command::Station(s) = command {
        opening::note_station(list, words, s)
    } else {
        words
    }
}

// The state after a line that asks so, but for the words of its list.
fn state_after(state: State, command: Command) -> State
    requires { (state.read < most_lines) × (state.lines < most_lines) }
    ensures { result ≡ record { lines = suc state.lines; read = read_after state.read command; words = state.words; phase = state.phase; corrections = given_count corrections state.corrections command; matrix = given_count matrix state.matrix command } }
{
    let lines = state.lines + 1;
    match command {
        Command::Station(_) => State {
            lines,
            read: state.read + 1,
            ..state
        },
        Command::Corrections(n) => State {
            lines,
            corrections: Some(n),
            ..state
        },
        Command::Matrix(n) => State {
            lines,
            matrix: Some(n),
            ..state
        },
        Command::Call(_) | Command::Unreadable => State { lines, ..state },
    }
}

// What a line asks in this state, and what it leaves of the state and the lent lists.
pub(crate) fn read_line(
    state: State,
    line: &[u8],
    over: bool,
    list: &mut [i64],
    x: &mut [i64],
    m: &mut [i64],
) -> LineRead
    requires list_room_in_bounds { (list_room ≤ length list.old) × (most_corrections ≤ length x.old) × (most_entries ≤ length m.old) }
    requires words_le_list_room { (state.words ≤ list_room) × (given_length state.corrections ≤ most_corrections) × (given_length state.matrix ≤ most_entries) }
    requires read_le_lines { (state.read ≤ state.lines) × (state.lines < most_lines) }
    ensures { Reads state (record { text = line.now; over = over }) list.old x.old m.old result list.new x.new m.new }
{
    let command = commands::read_command(line, over, state.read, opening::is_unopened(state), x, m);
    let words = note_words(list, state.words, command);
    let noted = state_after(state, command);
    LineRead {
        state: State { words, ..noted },
        command,
    }
}
