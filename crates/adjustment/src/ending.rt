// The end of the input: the check of what X and M gave, or of what the engine proposes.
ghost use Rattle.std.specs.Prelude.{◌≡◌, true, ◌≤◌, length};
ghost use Rattle.layout.specs.Bytes.{book_of, bytes_fit};
ghost use Rattle.printing.specs.Rooms.{sheet_room};
ghost use Rattle.input_lines.specs.States.{given_length, given_of, run_of, Ready};
ghost use Rattle.adjustment.specs.Ends.{BookEnds, RunEnds};

use input_lines::{Phase, State};

// What the end prints of a book.
fn conclude(
    out: &mut [u8],
    book: &[u8],
    corrections: Option<usize>,
    matrix: Option<usize>,
    x: &[i64],
    m: &[i64],
) -> usize
    requires { (bytes_fit book.now ≡ true) × (given_length corrections ≤ length x.now) × (given_length matrix ≤ length m.now) × (sheet_room ≤ length out.old) }
    ensures { BookEnds (given_of corrections x.now) (given_of matrix m.now) (book_of book.now) out.old result out.new }
{
    if corrections.is_some() | matrix.is_some() {
        let n = corrections.unwrap_or(0);
        let entries = matrix.unwrap_or(0);
        return printing::write_check(out, book, &x[..n], &m[..entries]);
    }
    printing::write_proposal(out, book)
}

// What the end of the input prints, at the front of out. It opens an unopened book.
pub fn finish(
    state: State,
    book: &mut [u8],
    list: &[i64],
    x: &[i64],
    m: &[i64],
    out: &mut [u8],
) -> usize
    requires { Ready state book.old list.now x.now m.now × (sheet_room ≤ length out.old) }
    ensures { RunEnds (run_of state (book_of book.old) list.now x.now m.now) out.old result out.new }
{
    match state.phase {
        Phase::Ended => 0,
        Phase::Opened => conclude(out, book, state.corrections, state.matrix, x, m),
        Phase::Unopened => match input_lines::open_list(list, state.words, book) {
            Ok(()) => conclude(out, book, state.corrections, state.matrix, x, m),
            Err(refusal) => printing::write_refused(out, 0, u64::from(refusal)),
        },
    }
}
