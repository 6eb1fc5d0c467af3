// The end of an input with a line that is held, and a whole text taken at once.
ghost use Rattle.std.specs.Prelude.{◌+◌, ◌*◌, ◌≤◌, ◌≡◌, length, leb};
ghost use Rattle.layout.specs.Layout.{book_bytes};
ghost use Rattle.commands.specs.Commands.{most_corrections, most_entries, longest_line};
ghost use Rattle.printing.specs.Rooms.{sheet_room, line_room};
ghost use Rattle.adjustment.specs.Ends.{RunEnds};
ghost use Rattle.input_lines.specs.Runs.{most_lines, list_room};
ghost use Rattle.adjustment.specs.Rooms.{run_in, ready_in, held_in, SameRooms};
ghost use Rattle.night_print.specs.Closing.{end_room, Concludes};
ghost use Rattle.night_print.specs.Texts.{PrintsAll, Printed};

use adjustment::{Rooms, Taken};
use input_lines::State;
use layout::Layout;
use normals::Normals;

// The most bytes that a last line and the end print.
pub const END_ROOM: usize = printing::LINE_ROOM + printing::SHEET_ROOM;

// What the end of the input prints of a run in the lent room.
fn finish(state: State, rooms: &mut Rooms, out: &mut [u8]) -> usize
    requires { ready_in state rooms.old × (sheet_room ≤ length out.old) }
    ensures same { SameRooms rooms.old rooms.new }
    ensures ends { RunEnds (run_in state rooms.old) out.old result out.new }
{
    // two steps for each list, so that the proof knows that it keeps its length
    let list = &mut *rooms.list;
    let list = &*list;
    let x = &mut *rooms.x;
    let x = &*x;
    let m = &mut *rooms.m;
    let m = &*m;
    adjustment::finish(state, rooms.book, list, x, m, out)
}

// What the end of the input prints, at the front of out. A last line that lacks its LF is taken first, as if it had it.
pub fn close(taken: Taken, rooms: &mut Rooms, out: &mut [u8]) -> usize
    requires ready { ready_in taken.state rooms.old }
    requires line_len { (length rooms.old.line.now ≡ longest_line) × (taken.len ≤ longest_line) × (taken.state.lines + 1 ≤ most_lines) × (end_room ≤ length out.old) }
    ensures same { SameRooms rooms.old rooms.new }
    ensures concludes { Concludes (run_in taken.state rooms.old) (held_in taken rooms.old) out.old result out.new }
{
    if text::is_line(taken.len, taken.over) {
        let last = adjustment::take_chunk(taken, rooms, b"\n", out);
        let printed = last.printed;
        let n = finish(last.state, rooms, &mut out[printed..]);
        return printed + n;
    }
    finish(taken.state, rooms, out)
}

// All that a text prints, at the front of out, with room lent for what a run keeps.
fn print_all(text: &[u8], rooms: &mut Rooms, out: &mut [u8]) -> usize
    requires { (length rooms.old.line.now ≡ longest_line) × (book_bytes ≤ length rooms.old.book.now) × (list_room ≤ length rooms.old.list.now) × (most_corrections ≤ length rooms.old.x.now) × (most_entries ≤ length rooms.old.m.now) × (line_room * length text.now + end_room ≤ length out.old) }
    ensures { PrintsAll text.now out.old result out.new }
{
    let begun = adjustment::begin();
    let taken = adjustment::take_chunk(begun, rooms, text, out);
    let printed = taken.printed;
    let n = close(taken, rooms, &mut out[printed..]);
    printed + n
}

// Whether out has room for whatever a text of that length prints: so many bytes for each of its own as a line may print, and the end.
fn has_room(text: usize, out: usize) -> bool
    ensures { result ≡ leb (line_room * text + end_room) out }
{
    if out < END_ROOM {
        return false;
    }
    text <= (out - END_ROOM) / printing::LINE_ROOM
}

// Prints a whole text: document 01's "The night print" of all its bytes, at the front of out, and how many bytes it has. None where out has too little room
// for whatever it might print; then nothing is written.
pub fn print_text(text: &[u8], out: &mut [u8]) -> Option<usize>
    ensures { Printed text.now out.old result out.new }
{
    if !has_room(text.len(), out.len()) {
        return None;
    }
    let mut line = [0; commands::LONGEST_LINE];
    let mut book = [0; Layout::BOOK_BYTES];
    let mut list = [0; input_lines::LIST_ROOM];
    let mut x = [0; Normals::ROW];
    let mut m = [0; Normals::ENTRIES];
    let mut rooms = Rooms {
        line: &mut line,
        book: &mut book,
        list: &mut list,
        x: &mut x,
        m: &mut m,
    };
    Some(print_all(text, &mut rooms, out))
}
