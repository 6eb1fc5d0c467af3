// A line to a command.
ghost use Rattle.std.specs.Prelude.{◌≡◌, false, suc, ◌≤◌, pos, length, drop};
ghost use Rattle.std.specs.Option.{unwrap_or};
ghost use Rattle.words.specs.Signed.{eq_z};
ghost use Rattle.text.specs.Fields.{first_field, rest_fields, letter_of, numbers_in, stored_in};
ghost use Rattle.commands.specs.Commands.{most_corrections, most_entries, exactly, just, level_entry, baseline_line, position_entry, entry_of, entered, after_r, strike_of, undo_of};
ghost use Rattle.commands.specs.Commands.{counted_as, corrections_in, matrix_in, station_with, station_of_kind, station_of, is_station_line, Obeys};
ghost use Rattle.commands.specs.declared.Command.TheVariants as command;

use super::{Command, Entry};
use book::{Call, Change};
use network::{Kind, Station, Unit};

// Entries of the matrix of a book with 48 unknowns.
const MATRIX_ENTRIES: usize = Unit::UNKNOWNS * Unit::UNKNOWNS;

// The numbers that the fields after the one at `from` are, where there are just N.
fn numbers<const N: usize>(line: &[u8], from: usize) -> Option<[i64; N]>
    ensures { result ≡ just N (numbers_in (rest_fields (drop from line.now))) }
{
    let mut a = [0i64; N];
    let n = text::read_rest(line, from, N, &mut a)?;
    if n == N { Some(a) } else { None }
}

// The fields after the letter at `from`: place, from, to, difference, weight.
fn level_entry(line: &[u8], from: usize) -> Option<Entry>
    ensures { result ≡ exactly 5 None level_entry (numbers_in (rest_fields (drop from line.now))) }
{
    let [place, start, end, difference, weight] = numbers::<5>(line, from)?;
    let of = network::height_of(start, end, difference, weight);
    Some(Entry { place, of })
}

// The fields after the letter at `from`: place, from, to, three differences, six weights, then two antenna heights or none. Of a line
// without heights they are the 0 that the array had.
// Stays: 12 numbers or 14 are right here, so one array of 14 is read and its count looked at; `numbers` twice would read the line twice.
fn baseline_line(line: &[u8], from: usize) -> Option<Entry>
    ensures { result ≡ baseline_line (numbers_in (rest_fields (drop from line.now))) }
{
    let mut a = [0i64; 14];
    let n = text::read_rest(line, from, 14, &mut a)?;
    if n != 12 && n != 14 {
        return None;
    }
    let of = network::baseline_in(&a, 0);
    Some(Entry { place: a[0], of })
}

// The fields after the letter at `from`: place, station, three coordinates, six weights.
fn position_line(line: &[u8], from: usize) -> Option<Entry>
    ensures { result ≡ exactly 11 None position_entry (numbers_in (rest_fields (drop from line.now))) }
{
    let [place, station, east, north, up, ee, en, eu, nn, nu, uu] = numbers::<11>(line, from)?;
    let of = network::position_of(station, [east, north, up], [ee, en, eu, nn, nu, uu]);
    Some(Entry { place, of })
}

// The field at `from` is the letter of a record; what it says with the fields after it.
fn entry_at(line: &[u8], from: usize) -> Option<Entry>
    ensures { result ≡ entry_of (letter_of (first_field (drop from line.now))) (rest_fields (drop from line.now)) }
{
    match text::letter_at(line, from)? {
        b'H' => level_entry(line, from),
        b'B' => baseline_line(line, from),
        b'P' => position_line(line, from),
        _ => None,
    }
}

// The field at `from` is the letter of a record, which is entered.
fn record_line(line: &[u8], from: usize) -> Option<Command>
    ensures { unwrap_or result command.Unreadable ≡ entered (entry_of (letter_of (first_field (drop from line.now))) (rest_fields (drop from line.now))) }
{
    let Entry { place, of } = entry_at(line, from)?;
    Some(Command::Call(Call::Edit(place, Change::Enter(of))))
}

// A line whose first field is R: the record that the fields after it give, as if they stood alone.
fn after_r(line: &[u8]) -> Option<Command>
    ensures { unwrap_or result command.Unreadable ≡ after_r (rest_fields line.now) }
{
    let end = text::field_end(line, 0);
    if line.len() <= end {
        return None;
    }
    record_line(line, end + 1)
}

fn strike_line(line: &[u8]) -> Option<Command>
    ensures { unwrap_or result command.Unreadable ≡ exactly 1 command.Unreadable strike_of (numbers_in (rest_fields line.now)) }
{
    let [place] = numbers::<1>(line, 0)?;
    Some(Command::Call(Call::Edit(place, Change::Strike)))
}

fn undo_line(line: &[u8]) -> Option<Command>
    ensures { unwrap_or result command.Unreadable ≡ undo_of (rest_fields line.now) }
{
    let end = text::field_end(line, 0);
    if line.len() <= end {
        Some(Command::Call(Call::Undo))
    } else {
        None
    }
}

// Stays: `matrix_line` is its twin, but of two lines each; one function for both would take the limit and the variant, and be no plainer.
fn corrections_line(line: &[u8], x: &mut [i64]) -> Option<Command>
    requires { most_corrections ≤ length x.old }
    ensures { (unwrap_or result command.Unreadable ≡ counted_as command.Corrections (corrections_in (rest_fields line.now))) × (x.new ≡ stored_in x.old (corrections_in (rest_fields line.now))) }
{
    let n = text::read_rest(line, 0, Unit::UNKNOWNS, x)?;
    Some(Command::Corrections(n))
}

fn matrix_line(line: &[u8], m: &mut [i64]) -> Option<Command>
    requires { most_entries ≤ length m.old }
    ensures { (unwrap_or result command.Unreadable ≡ counted_as command.Matrix (matrix_in (rest_fields line.now))) × (m.new ≡ stored_in m.old (matrix_in (rest_fields line.now))) }
{
    let n = text::read_rest(line, 0, MATRIX_ENTRIES, m)?;
    Some(Command::Matrix(n))
}

// A station of a kind, with the three coordinates in the fields after the one at `from`.
fn station_with(line: &[u8], from: usize, kind: Kind) -> Option<Command>
    ensures { unwrap_or result command.Unreadable ≡ exactly 3 command.Unreadable (station_with kind) (numbers_in (rest_fields (drop from line.now))) }
{
    let [east, north, up] = numbers::<3>(line, from)?;
    Some(Command::Station(Station {
        kind,
        east,
        north,
        up,
    }))
}

// The field at `from` is the letter of a kind.
fn kind_at(line: &[u8], from: usize) -> Option<Command>
    ensures { unwrap_or result command.Unreadable ≡ station_of_kind (letter_of (first_field (drop from line.now))) (numbers_in (rest_fields (drop from line.now))) }
{
    match text::letter_at(line, from)? {
        b'K' => station_with(line, from, Kind::Known),
        b'F' => station_with(line, from, Kind::Free),
        b'V' => station_with(line, from, Kind::Height),
        _ => None,
    }
}

// v is one more than `read`.
fn in_turn(v: i64, read: u64) -> bool
    ensures { result ≡ eq_z v (pos (suc read)) }
{
    0 < v && v.unsigned_abs() - 1 == read
}

fn station_line(line: &[u8], read: u64) -> Option<Command>
    ensures { unwrap_or result command.Unreadable ≡ station_of read (rest_fields line.now) }
{
    let letter_end = text::field_end(line, 0);
    if line.len() <= letter_end {
        return None;
    }
    let from = letter_end + 1;
    let end = text::field_end(line, from);
    if line.len() <= end {
        return None;
    }
    let v = text::number_of(&line[from..end])?;
    if in_turn(v, read) {
        kind_at(line, end + 1)
    } else {
        None
    }
}

// What a line that was not cut asks, where it is readable.
fn command_in(
    line: &[u8],
    read: u64,
    unopened: bool,
    x: &mut [i64],
    m: &mut [i64],
) -> Option<Command>
    requires { (most_corrections ≤ length x.old) × (most_entries ≤ length m.old) }
    ensures { Obeys read unopened (record { text = line.now; over = false }) x.old m.old (unwrap_or result command.Unreadable) x.new m.new }
{
    match text::letter_at(line, 0)? {
        b'S' => {
            if unopened {
                station_line(line, read)
            } else {
                None
            }
        }
        b'X' => corrections_line(line, x),
        b'M' => matrix_line(line, m),
        b'R' => after_r(line),
        b'D' => strike_line(line),
        b'U' => undo_line(line),
        _ => record_line(line, 0),
    }
}

// What a line asks, after `read` S lines; `over` where it was cut. The numbers of an X or M line go to the front of x or m.
pub fn read_command(
    line: &[u8],
    over: bool,
    read: u64,
    unopened: bool,
    x: &mut [i64],
    m: &mut [i64],
) -> Command
    requires { (most_corrections ≤ length x.old) × (most_entries ≤ length m.old) }
    ensures { Obeys read unopened (record { text = line.now; over = over }) x.old m.old result x.new m.new }
{
    if over {
        return Command::Unreadable;
    }
    command_in(line, read, unopened, x, m).unwrap_or(Command::Unreadable)
}

// Whether a line keeps the station list open.
pub fn is_station_line(line: &[u8]) -> bool
    ensures { result ≡ is_station_line line.now }
{
    text::letter_at(line, 0) == Some(b'S')
}
