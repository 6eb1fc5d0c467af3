// A check printed: its sheet, or its refusal. The book is in bytes that hold one.
ghost use Rattle.std.specs.Prelude.{◌≡◌, true, ◌≤◌, length};
ghost use Rattle.layout.specs.Bytes.{book_of, bytes_fit};
ghost use Rattle.sheet.specs.Sheet.{room};
ghost use Rattle.sheet.specs.Sheet.{room};
ghost use Rattle.text.specs.Writing.{Written};
ghost use Rattle.printing.specs.Rooms.{sheet_room};
ghost use Rattle.printing.specs.SheetText.{sheet_text};
ghost use Rattle.printing.specs.Reports.{refusal_says, check_says};
ghost use Rattle.acceptance.specs.Judge.{refusal_number, refusal_unknown};

use super::{messages, sheet_text, zeros};
use acceptance::Refusal;

// The sheet of the book, from its words.
fn write_words(out: &mut [u8], s: &[u8], words: &[i64]) -> usize
    requires { (bytes_fit s.now ≡ true) × (room (book_of s.now).network (book_of s.now).places ≤ length words.now) × (sheet_room ≤ length out.old) }
    ensures written { Written out.old 0 (sheet_text words.now (book_of s.now).network.count (book_of s.now).places) result out.new }
    ensures upper_bound { result ≤ sheet_room }
{
    let net = layout::network_in(s);
    let places = layout::places_in(s);
    sheet_text::write_sheet(out, words, net.count, &places)
}

// A refusal by its number, and for 11 the unknown.
fn write_refusal(out: &mut [u8], refusal: Refusal) -> usize
    requires { sheet_room ≤ length out.old }
    ensures written { Written out.old 0 (refusal_says (refusal_number refusal) (refusal_unknown refusal)) result out.new }
    ensures upper_bound { result ≤ sheet_room }
{
    match refusal {
        Refusal::Untied(unknown) => messages::write_refused_unknown(out, 0, unknown),
        _ => messages::write_refused(out, 0, u64::from(refusal)),
    }
}

// The check of a pair, printed; it works in `words`, of just the sheet's room.
fn report_check(out: &mut [u8], s: &[u8], x: &[i64], m: &[i64], words: &mut [i64]) -> usize
    requires { (bytes_fit s.now ≡ true) × (length words.old ≡ room (book_of s.now).network (book_of s.now).places) × (sheet_room ≤ length out.old) }
    ensures written { Written out.old 0 (check_says (book_of s.now) x.now m.now) result out.new }
    ensures upper_bound { result ≤ sheet_room }
{
    let answer = checks::check_sheet_in(s, x, m, words);
    match answer {
        Ok(()) => write_words(out, s, words),
        Err(refusal) => write_refusal(out, refusal),
    }
}

// The check of a pair on the book that the bytes hold, printed at the front of out: the sheet, or the refusal.
pub fn write_check(out: &mut [u8], s: &[u8], x: &[i64], m: &[i64]) -> usize
    requires { (bytes_fit s.now ≡ true) × (sheet_room ≤ length out.old) }
    ensures written { Written out.old 0 (check_says (book_of s.now) x.now m.now) result out.new }
    ensures upper_bound { result ≤ sheet_room }
{
    let room = checks::room_in(s);
    let mut words = zeros::<{ sheet::LONGEST }>();
    report_check(out, s, x, m, &mut words[0..room])
}
