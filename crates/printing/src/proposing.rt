// The engine's proposal printed: the sheet of a pair that the check accepts, or that there is none. The book is in bytes that hold one.
ghost use Rattle.std.specs.Prelude.{◌≡◌, true, ◌*◌, ◌≤◌, length};
ghost use Rattle.layout.specs.Bytes.{book_of, bytes_fit};
ghost use Rattle.printing.specs.Rooms.{sheet_room};
ghost use Rattle.printing.specs.Reports.{Reported};

use super::{checking, messages, zeros};
use engine::Proposal;
use network::Unit;
use normals::Normals;

// The proposal for x and m, printed.
fn report_proposal(
    out: &mut [u8],
    s: &[u8],
    x: &mut [i64],
    m: &mut [i64],
    work: &mut [f64],
) -> usize
    requires { (bytes_fit s.now ≡ true) × (sheet_room ≤ length out.old) }
    ensures { Reported (book_of s.now) out.old result out.new }
{
    match engine::propose_in(s, x, m, work) {
        Proposal::Nothing => messages::write_no_proposal(out, 0),
        Proposal::Made => checking::write_check(out, s, x, m),
    }
}

// The engine's proposal for the book that the bytes hold, printed at the front of out.
pub fn write_proposal(out: &mut [u8], s: &[u8]) -> usize
    requires { (bytes_fit s.now ≡ true) × (sheet_room ≤ length out.old) }
    ensures { Reported (book_of s.now) out.old result out.new }
{
    let network = layout::network_in(s);
    let stations = network.stations;
    let n = network::number_of(stations, Unit::COMPONENTS);
    let mut x = zeros::<{ Normals::ROW }>();
    let mut m = zeros::<{ Normals::ENTRIES }>();
    let mut work = [0.0; engine::WORK];
    report_proposal(out, s, &mut x[..n], &mut m[..n * n], &mut work)
}
