// The printed message lines, into a lent buffer: each takes the position to write at and gives the position after.
ghost use Rattle.std.specs.Prelude.{◌+◌, ◌≤◌, length};
ghost use Rattle.text.specs.Writing.{Written};
ghost use Rattle.printing.specs.Rooms.{message_room, unreadable_room, refused_room, refused_unknown_room, no_proposal_room};
ghost use Rattle.printing.specs.Messages.{refused_line, unreadable_line, refused_text, refused_unknown_text, no_proposal_text};

use text::{write_byte, write_natural, write_text};

// `LINE k REFUSED no`
pub fn write_refused_line(out: &mut [u8], at: usize, k: u64, number: u64) -> usize
    requires { at + message_room ≤ length out.old }
    ensures written { Written out.old at (refused_line k number) result out.new }
    ensures upper_bound { result ≤ at + message_room }
{
    let a = write_text(out, at, b"LINE ");
    let b = write_natural(out, a, k);
    let c = write_text(out, b, b" REFUSED ");
    let d = write_natural(out, c, number);
    write_byte(out, d, b'\n')
}

// `LINE k UNREADABLE`
pub fn write_unreadable_line(out: &mut [u8], at: usize, k: u64) -> usize
    requires { at + unreadable_room ≤ length out.old }
    ensures written { Written out.old at (unreadable_line k) result out.new }
    ensures upper_bound { result ≤ at + unreadable_room }
{
    let a = write_text(out, at, b"LINE ");
    let b = write_natural(out, a, k);
    write_text(out, b, b" UNREADABLE\n")
}

// `REFUSED no`
pub fn write_refused(out: &mut [u8], at: usize, number: u64) -> usize
    requires { at + refused_room ≤ length out.old }
    ensures written { Written out.old at (refused_text number) result out.new }
    ensures upper_bound { result ≤ at + refused_room }
{
    let a = write_text(out, at, b"REFUSED ");
    let b = write_natural(out, a, number);
    write_byte(out, b, b'\n')
}

// `REFUSED 11 unknown`
pub fn write_refused_unknown(out: &mut [u8], at: usize, unknown: u64) -> usize
    requires { at + refused_unknown_room ≤ length out.old }
    ensures written { Written out.old at (refused_unknown_text unknown) result out.new }
    ensures upper_bound { result ≤ at + refused_unknown_room }
{
    let a = write_text(out, at, b"REFUSED 11 ");
    let b = write_natural(out, a, unknown);
    write_byte(out, b, b'\n')
}

// `NO PROPOSAL`
pub fn write_no_proposal(out: &mut [u8], at: usize) -> usize
    requires { at + no_proposal_room ≤ length out.old }
    ensures { Written out.old at no_proposal_text result out.new }
{
    write_text(out, at, b"NO PROPOSAL\n")
}
