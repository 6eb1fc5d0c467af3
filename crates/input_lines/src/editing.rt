// What an edit line does to the book that bytes hold, and the message of a line.
ghost use Rattle.std.specs.Prelude.{◌≡◌, true, cond, [], ◌+◌, ◌≤◌, length};
ghost use Rattle.book.specs.Refusals.{answer_no};
ghost use Rattle.layout.specs.Bytes.{book_of, bytes_fit};
ghost use Rattle.text.specs.Writing.{Written};
ghost use Rattle.printing.specs.Rooms.{message_room};
ghost use Rattle.input_lines.specs.Runs.{unedited, edits, refused_says, command_says};
ghost use Rattle.input_lines.specs.States.{opened_phase, ended_phase, EditLeaves};

use super::Phase;
use book::Refusal;
use commands::Command;

// The edit that a line asks for, in place; any other line leaves the bytes as they came.
fn edit(book: &mut [u8], command: Command) -> Result<(), Refusal>
    requires { bytes_fit book.old ≡ true }
    ensures { EditLeaves (edits (book_of book.old) command) (answer_no result) book.new × (bytes_fit book.new ≡ true) }
{
    if let Command::Call(call) = command {
        lent_edits::apply(book, call)
    } else {
        Ok(())
    }
}

// The same where there is a book.
pub(crate) fn edit_opened(book: &mut [u8], phase: Phase, command: Command) -> Result<(), Refusal>
    requires { opened_phase phase ≡ true → bytes_fit book.old ≡ true }
    ensures { EditLeaves (cond (opened_phase phase) (edits (book_of book.old) command) (unedited (book_of book.old))) (answer_no result) book.new × (opened_phase phase ≡ true → bytes_fit book.new ≡ true) }
{
    match phase {
        Phase::Opened => edit(book, command),
        Phase::Unopened | Phase::Ended => Ok(()),
    }
}

fn write_refusal(out: &mut [u8], at: usize, k: u64, answer: Result<(), Refusal>) -> usize
    requires { at + message_room ≤ length out.old }
    ensures written { Written out.old at (refused_says k (answer_no answer)) result out.new }
    ensures upper_bound { result ≤ at + message_room }
{
    match answer {
        Ok(()) => at,
        Err(refusal) => printing::write_refused_line(out, at, k, u64::from(refusal)),
    }
}

// The message of line k, which asked so and was answered so.
fn write_answer(
    out: &mut [u8],
    at: usize,
    k: u64,
    command: Command,
    answer: Result<(), Refusal>,
) -> usize
    requires { at + message_room ≤ length out.old }
    ensures written { Written out.old at (command_says k (answer_no answer) command) result out.new }
    ensures upper_bound { result ≤ at + message_room }
{
    match command {
        Command::Unreadable => printing::write_unreadable_line(out, at, k),
        _ => write_refusal(out, at, k, answer),
    }
}

// The same, but nothing after a refused opening.
pub(crate) fn write_message(
    out: &mut [u8],
    at: usize,
    phase: Phase,
    k: u64,
    command: Command,
    answer: Result<(), Refusal>,
) -> usize
    requires { at + message_room ≤ length out.old }
    ensures written { Written out.old at (cond (ended_phase phase) [] (command_says k (answer_no answer) command)) result out.new }
    ensures upper_bound { result ≤ at + message_room }
{
    match phase {
        Phase::Ended => at,
        Phase::Unopened | Phase::Opened => write_answer(out, at, k, command, answer),
    }
}
