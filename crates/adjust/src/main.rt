// Reads the lines of a survey from standard input, applies them, checks, and prints: document 01's "The night print". What is printed is settled by the
// contracts of `night_print`; here bytes are read and written. Each chunk's messages are written before the next is read.
#![tactic(auto)]

ghost use Rattle.std.specs.Prelude.{◌≡◌, ◌+◌, ◌≤◌, IfSome, is_none, option_copied, length};
ghost use Rattle.layout.specs.Layout.{book_bytes};
ghost use Rattle.commands.specs.Commands.{most_corrections, most_entries, longest_line};
ghost use Rattle.input_lines.specs.Runs.{most_lines, list_room};
ghost use Rattle.adjustment.specs.Rooms.{run_in, ready_in, held_in, SameRooms};
ghost use Rattle.night_print.specs.Steps.{bytes_in, Steps, Continues};
ghost use Rattle.adjust.specs.Program.{chunk_room, out_room, read_failed, read_gave, ProgramEnds};

use adjustment::{Rooms, Taken};
use layout::Layout;
use night_print::{Progress, Stepped};
use normals::Normals;
use std::io::{Read, Stdin};

// The most bytes that a read gives, and room for what their lines print, or for the end.
const CHUNK_ROOM: usize = 768;

const OUT_ROOM: usize = printing::LINE_ROOM * CHUNK_ROOM;

// 2^54 − 1: after so many reads a line's number still fits 64 bits.
const MOST_READS: usize = 18014398509481983;

// How the program ends: all is printed, the input having ended or the opening having been refused; the input could not be read to its end; the output is closed.
#[derive(Clone, Copy)]
pub enum Finish {
    Printed,
    Refused,
    Unread,
    Unwritten,
}

// A turn: what the read gave, as `read_chunk` has it, and the step that took it.
#[derive(Clone, Copy)]
struct Turned {
    read: Option<usize>,
    stepped: Stepped,
}

// Reads the next chunk to its front: how many bytes came, 0 at the end of the input; None where the read failed.
fn read_chunk(input: &mut Stdin, chunk: &mut [u8]) -> Option<usize>
    ensures in_bounds { IfSome result (λ n. n ≤ length chunk.new) }
{
    input.read(chunk).ok()
}

// What the read gave, at the front of the chunk.
fn bytes_read(chunk: &[u8], read: Option<usize>) -> Option<&[u8]>
    requires { IfSome read (λ n. n ≤ length chunk.now) }
    ensures failed { is_none result ≡ read_failed read }
    ensures gave { bytes_in (option_copied result) ≡ read_gave read chunk.now }
{
    match read {
        Some(n) => Some(&chunk[..n]),
        None => None,
    }
}

// Reads the next chunk and takes its lines: the front of `chunk` is what read gave, and the front of `out` is to be written next.
fn turn(
    input: &mut Stdin,
    taken: Taken,
    rooms: &mut Rooms,
    chunk: &mut [u8],
    out: &mut [u8],
) -> Turned
    requires ready { ready_in taken.state rooms.old }
    requires line_len { (length rooms.old.line.now ≡ longest_line) × (taken.len ≤ longest_line) × (taken.state.lines + chunk_room + 1 ≤ most_lines) × (length chunk.old ≡ chunk_room) × (out_room ≤ length out.old) }
    ensures same { SameRooms rooms.old rooms.new }
    ensures steps { Steps (run_in taken.state rooms.old) (held_in taken rooms.old) (read_failed result.read) (read_gave result.read chunk.new) out.old result.stepped.progress (run_in result.stepped.taken.state rooms.new) (held_in result.stepped.taken rooms.new) result.stepped.printed out.new }
    ensures continues { Continues taken (read_gave result.read chunk.new) result.stepped.progress result.stepped.taken result.stepped.printed rooms.new.book.now rooms.new.list.now rooms.new.x.now rooms.new.m.now out.new }
{
    let read = read_chunk(input, chunk);
    let came = bytes_read(chunk, read);
    let stepped = night_print::step(taken, came, rooms, out);
    Turned { read, stepped }
}

// Takes chunk after chunk, and writes what each prints before the next is read. An input of more reads than lines can be numbered counts as one that could not be read to its end.
fn run(input: &mut Stdin, rooms: &mut Rooms, chunk: &mut [u8], out: &mut [u8]) -> Finish
    requires { (length rooms.old.line.now ≡ longest_line) × (book_bytes ≤ length rooms.old.book.now) × (list_room ≤ length rooms.old.list.now) × (most_corrections ≤ length rooms.old.x.now) × (most_entries ≤ length rooms.old.m.now) × (length chunk.old ≡ chunk_room) × (out_room ≤ length out.old) }
    ensures { ProgramEnds result chunk.new out.new }
{
    let mut taken = adjustment::begin();
    for _ in 0..MOST_READS {
        let t = turn(input, taken, rooms, chunk, out);
        let s = t.stepped;
        if !io::write_all(1, &out[..s.printed]) {
            return Finish::Unwritten;
        }
        match s.progress {
            Progress::Finished => return Finish::Printed,
            Progress::Refused => return Finish::Refused,
            Progress::Unread => return Finish::Unread,
            Progress::Reading => {}
        }
        taken = s.taken;
    }
    Finish::Unread
}

// A failed read is told on standard error, so that what was printed is not taken for all.
fn tell(finish: Finish) {
    if let Finish::Unread = finish {
        io::write_all(
            2,
            b"adjust: the input could not be read to its end; nothing after this point was applied, and no sheet is printed\n",
        );
    }
}

fn main(rt: HostRuntime) {
    let mut input = rt.stdin();
    let mut line = [0; commands::LONGEST_LINE];
    let mut book = [0; Layout::BOOK_BYTES];
    let mut list = [0; input_lines::LIST_ROOM];
    let mut x = [0; Normals::ROW];
    let mut m = [0; Normals::ENTRIES];
    let mut rooms = Rooms {
        line: &mut line,
        book: &mut book,
        list: &mut list,
        x: &mut x,
        m: &mut m,
    };
    let mut chunk = [0; CHUNK_ROOM];
    let mut out = [0; OUT_ROOM];
    tell(run(&mut input, &mut rooms, &mut chunk, &mut out));
}
