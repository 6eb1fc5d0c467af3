// One step of a run: what a read gave is taken, and what is to be written next stands at the front of out.
ghost use Rattle.std.specs.Prelude.{◌+◌, ◌*◌, ◌≤◌, ◌≡◌, cond, is_none, option_copied, length};
ghost use Rattle.commands.specs.Commands.{longest_line};
ghost use Rattle.printing.specs.Rooms.{line_room};
ghost use Rattle.adjustment.specs.Rooms.{run_in, ready_in, held_in, SameRooms};
ghost use Rattle.night_print.specs.declared.Progress.TheVariants.{Reading, Refused};
ghost use Rattle.night_print.specs.Closing.{end_room};
ghost use Rattle.input_lines.specs.Runs.{most_lines};
ghost use Rattle.night_print.specs.Steps.{bytes_in, Steps, Continues};

use super::{Progress, Stepped, closing};
use adjustment::{Rooms, Taken};

// A refused opening ends a run.
fn progress_of(ended: bool) -> Progress
    ensures { result ≡ cond ended Refused Reading }
{
    if ended {
        Progress::Refused
    } else {
        Progress::Reading
    }
}

// Takes what a read gave: its bytes, none of them at the end of the input, or None where it failed. A failed read is no end of the input: nothing more is printed.
pub fn step(taken: Taken, came: Option<&[u8]>, rooms: &mut Rooms, out: &mut [u8]) -> Stepped
    requires ready { ready_in taken.state rooms.old }
    requires line_len { (length rooms.old.line.now ≡ longest_line) × (taken.len ≤ longest_line) × (taken.state.lines + length (bytes_in (option_copied came)) + 1 ≤ most_lines) × (line_room * length (bytes_in (option_copied came)) ≤ length out.old) × (end_room ≤ length out.old) }
    ensures same { SameRooms rooms.old rooms.new }
    ensures steps { Steps (run_in taken.state rooms.old) (held_in taken rooms.old) (is_none came.entry) (bytes_in (option_copied came.entry)) out.old result.progress (run_in result.taken.state rooms.new) (held_in result.taken rooms.new) result.printed out.new }
    ensures continues { Continues taken (bytes_in (option_copied came.entry)) result.progress result.taken result.printed rooms.new.book.now rooms.new.list.now rooms.new.x.now rooms.new.m.now out.new }
{
    let Some(chunk) = came else {
        return Stepped {
            taken,
            printed: 0,
            progress: Progress::Unread,
        };
    };
    if chunk.len() == 0 {
        let printed = closing::close(taken, rooms, out);
        return Stepped {
            taken,
            printed,
            progress: Progress::Finished,
        };
    }
    let next = adjustment::take_chunk(taken, rooms, chunk, out);
    Stepped {
        taken: next,
        printed: next.printed,
        progress: progress_of(input_lines::is_ended(next.state)),
    }
}
