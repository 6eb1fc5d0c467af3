// A chunk of the input: its bytes go on with the line that is held, and each line that ends in it is obeyed.
ghost use Rattle.std.specs.Prelude.{suc, ◌+◌, ◌*◌, ◌<◌, ◌≤◌, ◌≡◌, length};
ghost use Rattle.text.specs.Lines.{holds};
ghost use Rattle.commands.specs.Commands.{longest_line};
ghost use Rattle.printing.specs.Rooms.{line_room};
ghost use Rattle.input_lines.specs.Runs.{most_lines, next, says};
ghost use Rattle.input_lines.specs.States.{RunsTo};
ghost use Rattle.adjustment.specs.Rooms.{run_in, ready_in, held_in, SameRooms};
ghost use Rattle.adjustment.specs.Chunks.{Takes, Begun};

use super::{Rooms, Taken};
use input_lines::{Phase, Reached, State};

// A run before its first byte.
pub fn begin() -> Taken
    ensures { Begun result }
{
    Taken {
        state: State {
            lines: 0,
            read: 0,
            words: 0,
            phase: Phase::Unopened,
            corrections: None,
            matrix: None,
        },
        len: 0,
        over: false,
        printed: 0,
    }
}

// Obeys the line at the front of the lent buffer, up to len.
fn obey_line(from: Reached, len: usize, over: bool, rooms: &mut Rooms, out: &mut [u8]) -> Reached
    requires ready { ready_in from.state rooms.old }
    requires line_len { (len ≤ length rooms.old.line.now) × (from.state.lines < most_lines) × (from.printed + line_room ≤ length out.old) }
    ensures same { SameRooms rooms.old rooms.new }
    ensures runs_to { RunsTo (next (run_in from.state rooms.old) (holds rooms.old.line.now len over)) (says (run_in from.state rooms.old) (holds rooms.old.line.now len over)) line_room out.old from.printed (run_in result.state rooms.new) result.printed out.new }
    ensures ready_2 { ready_in result.state rooms.new × (result.state.lines ≡ suc from.state.lines) }
{
    // two steps, so that the proof knows that the buffer keeps its length
    let buffer = &mut *rooms.line;
    let line = &*buffer;
    input_lines::obey(
        from,
        &line[..len],
        over,
        rooms.book,
        rooms.list,
        rooms.x,
        rooms.m,
        out,
    )
}

// Takes the lines that end in a chunk, and what there is of the next; the messages go to the front of out.
pub fn take_chunk(taken: Taken, rooms: &mut Rooms, chunk: &[u8], out: &mut [u8]) -> Taken
    requires ready { ready_in taken.state rooms.old }
    requires line_len { (length rooms.old.line.now ≡ longest_line) × (taken.len ≤ longest_line) × (taken.state.lines + length chunk.now ≤ most_lines) × (line_room * length chunk.now ≤ length out.old) }
    ensures same { SameRooms rooms.old rooms.new }
    ensures takes { Takes (run_in taken.state rooms.old) (held_in taken rooms.old) chunk.now out.old (run_in result.state rooms.new) (held_in result rooms.new) result.printed out.new }
    ensures ready_2 { ready_in result.state rooms.new × (result.len ≤ longest_line) × (result.state.lines ≤ taken.state.lines + length chunk.now) × (result.printed ≤ line_room * length chunk.now) }
{
    let mut reached = Reached {
        state: taken.state,
        printed: 0,
    };
    let mut len = taken.len;
    let mut over = taken.over;
    let mut at: usize = 0;
    // Stays: a step ends where `feed` says, and not at the next index
    while at < chunk.len() {
        let fed = text::feed(rooms.line, len, over, chunk, at);
        at = fed.next;
        len = fed.len;
        over = fed.over;
        if !fed.whole {
            return taken_to(reached, len, over);
        }
        reached = obey_line(reached, len, over, rooms, out);
        len = 0;
        over = false;
    }
    taken_to(reached, len, over)
}

fn taken_to(reached: Reached, len: usize, over: bool) -> Taken
    ensures { result ≡ record { state = reached.state; len = len; over = over; printed = reached.printed } }
{
    Taken {
        state: reached.state,
        len,
        over,
        printed: reached.printed,
    }
}
