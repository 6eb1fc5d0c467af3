// A line obeyed: it may open the book, is read, applied, and answered by its message.
ghost use Rattle.std.specs.Prelude.{suc, ◌+◌, ◌≤◌, ◌<◌, ◌≡◌, length};
ghost use Rattle.layout.specs.Bytes.{book_of};
ghost use Rattle.layout.specs.Layout.{book_bytes};
ghost use Rattle.printing.specs.Rooms.{refused_room, line_room};
ghost use Rattle.input_lines.specs.Runs.{most_lines, next, says};
ghost use Rattle.input_lines.specs.States.{run_of, Ready, RunsTo, LineBegins};

use super::{Reached, editing, opening, reading};

// The first line whose first field is not S opens the book, and a refusal is printed.
fn begin_line(from: Reached, line: &[u8], list: &[i64], book: &mut [u8], out: &mut [u8]) -> Reached
    requires { (from.state.words ≤ length list.now) × (book_bytes ≤ length book.old) × (from.printed + refused_room ≤ length out.old) }
    ensures { LineBegins from.state book.old list.now line.now out.old from.printed result.state book.new result.printed out.new }
{
    let before = from.state;
    if opening::opens_at(before, line) {
        let answer = opening::open_list(list, before.words, book);
        let printed = opening::write_opening(out, from.printed, answer);
        let state = opening::opened(before, answer);
        return Reached { state, printed };
    }
    from
}

// A line, `over` where it was cut: what it leaves of the run, and what it prints, from where the run has printed to.
pub fn obey(
    from: Reached,
    line: &[u8],
    over: bool,
    book: &mut [u8],
    list: &mut [i64],
    x: &mut [i64],
    m: &mut [i64],
    out: &mut [u8],
) -> Reached
    requires ready { Ready from.state book.old list.old x.old m.old }
    requires lines_lt_most_lines { (from.state.lines < most_lines) × (from.printed + line_room ≤ length out.old) }
    ensures runs_to { RunsTo (next (run_of from.state (book_of book.old) list.old x.old m.old) (record { text = line.now; over = over })) (says (run_of from.state (book_of book.old) list.old x.old m.old) (record { text = line.now; over = over })) line_room out.old from.printed (run_of result.state (book_of book.new) list.new x.new m.new) result.printed out.new }
    ensures ready_2 { Ready result.state book.new list.new x.new m.new × (result.state.lines ≡ suc from.state.lines) }
{
    let begun = begin_line(from, line, list, book, out);
    let before = begun.state;
    let asked = reading::read_line(before, line, over, list, x, m);
    let command = asked.command;
    let answer = editing::edit_opened(book, before.phase, command);
    let state = asked.state;
    let printed = editing::write_message(
        out,
        begun.printed,
        before.phase,
        state.lines,
        command,
        answer,
    );
    Reached { state, printed }
}
