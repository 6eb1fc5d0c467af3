// The lines of the printed sheet, from the sheet's words, into a lent buffer: each takes the position to write at and gives the position after.
ghost use Rattle.std.specs.Prelude.{◌≡◌, ◌+◌, ◌*◌, ◌≤◌, length};
ghost use Rattle.network.specs.Places.{places_length, places_in};
ghost use Rattle.sheet.specs.Sheet.{line_length};
ghost use Rattle.text.specs.Writing.{Written};
ghost use Rattle.printing.specs.Rooms.{field_room, verdict_room, head_room, station_room, baseline_room, height_room, global_room, sheet_room};
ghost use Rattle.printing.specs.SheetText.{fields, verdict, head_text, station_text, baseline_text, height_text, global_text};
ghost use Rattle.printing.specs.SheetText.{station_texts, record_text, record_start, record_texts, global_start, sheet_text};

use super::SheetPrinted;
use network::{Record, Unit};
use text::{write_byte, write_number, write_text};

// How many components a baseline observes, and so does a position; and how many a height difference.
const BASELINE_COMPONENTS: usize = 3;

const HEIGHT_COMPONENTS: usize = 1;

// n words of w from o on, a blank after each.
fn write_fields(out: &mut [u8], at: usize, w: &[i64], o: usize, n: usize) -> usize
    requires { (o + n ≤ length w.now) × (at + n * field_room ≤ length out.old) }
    ensures written { Written out.old at (fields w.now o n) result out.new }
    ensures upper_bound { result ≤ at + n * field_room }
{
    let mut p = at;
    for i in 0..n {
        let q = write_number(out, p, w[o + i]);
        p = write_byte(out, q, b' ');
    }
    p
}

fn write_verdict(out: &mut [u8], at: usize, v: i64) -> usize
    requires { at + verdict_room ≤ length out.old }
    ensures written { Written out.old at (verdict v) result out.new }
    ensures upper_bound { result ≤ at + verdict_room }
{
    match v {
        0 => write_text(out, at, b"PASS"),
        1 => write_text(out, at, b"FAIL"),
        2 => write_text(out, at, b"LOOSE"),
        3 => write_text(out, at, b"LOW"),
        4 => write_text(out, at, b"HIGH"),
        _ => write_text(out, at, b"NONE"),
    }
}

// `SHEET 2 RECORDS 1 UNKNOWNS`
fn write_head(out: &mut [u8], at: usize, w: &[i64]) -> usize
    requires { (2 ≤ length w.now) × (at + head_room ≤ length out.old) }
    ensures written { Written out.old at (head_text w.now) result out.new }
    ensures upper_bound { result ≤ at + head_room }
{
    let a = write_text(out, at, b"SHEET ");
    let b = write_number(out, a, w[0]);
    let c = write_text(out, b, b" RECORDS ");
    let d = write_number(out, c, w[1]);
    write_text(out, d, b" UNKNOWNS\n")
}

// A station's line, from its seven words.
fn write_station(out: &mut [u8], at: usize, w: &[i64], o: usize) -> usize
    requires { (o + 7 ≤ length w.now) × (at + station_room ≤ length out.old) }
    ensures written { Written out.old at (station_text w.now o) result out.new }
    ensures upper_bound { result ≤ at + station_room }
{
    let a = write_fields(out, at, w, o, 6);
    let b = write_number(out, a, w[o + 6]);
    write_byte(out, b, b'\n')
}

// A baseline's line, from its seven words.
fn write_baseline(out: &mut [u8], at: usize, w: &[i64], o: usize) -> usize
    requires { (o + 7 ≤ length w.now) × (at + baseline_room ≤ length out.old) }
    ensures written { Written out.old at (baseline_text w.now o) result out.new }
    ensures upper_bound { result ≤ at + baseline_room }
{
    let a = write_fields(out, at, w, o, 4);
    let b = write_verdict(out, a, w[o + 4]);
    let c = write_byte(out, b, b' ');
    let d = write_verdict(out, c, w[o + 5]);
    let e = write_byte(out, d, b' ');
    let f = write_verdict(out, e, w[o + 6]);
    write_byte(out, f, b'\n')
}

// A height difference's line, from its three words.
fn write_height(out: &mut [u8], at: usize, w: &[i64], o: usize) -> usize
    requires { (o + 3 ≤ length w.now) × (at + height_room ≤ length out.old) }
    ensures written { Written out.old at (height_text w.now o) result out.new }
    ensures upper_bound { result ≤ at + height_room }
{
    let a = write_fields(out, at, w, o, 2);
    let b = write_verdict(out, a, w[o + 2]);
    write_byte(out, b, b'\n')
}

// `GLOBAL 500000 1 PASS`
fn write_global(out: &mut [u8], at: usize, w: &[i64], o: usize) -> usize
    requires { (o + 3 ≤ length w.now) × (at + global_room ≤ length out.old) }
    ensures written { Written out.old at (global_text w.now o) result out.new }
    ensures upper_bound { result ≤ at + global_room }
{
    let a = write_text(out, at, b"GLOBAL ");
    let b = write_fields(out, a, w, o, 2);
    let c = write_verdict(out, b, w[o + 2]);
    write_byte(out, c, b'\n')
}

// The lines of n stations.
fn write_stations(out: &mut [u8], at: usize, w: &[i64], n: usize) -> usize
    requires { (2 + n * 7 ≤ length w.now) × (at + n * station_room ≤ length out.old) }
    ensures written { Written out.old at (station_texts w.now n) result out.new }
    ensures upper_bound { result ≤ at + n * station_room }
{
    let mut p = at;
    for i in 0..n {
        p = write_station(out, p, w, 2 + i * 7);
    }
    p
}

// A record's line, its words from o on, by how many components it observes; nothing for an empty place.
fn write_record(out: &mut [u8], at: usize, w: &[i64], o: usize, r: Record) -> usize
    requires { (o + line_length r ≤ length w.now) × (at + baseline_room ≤ length out.old) }
    ensures written { Written out.old at (record_text w.now o r) result out.new }
    ensures upper_bound { result ≤ at + baseline_room }
{
    let observed = network::observations_of(r);
    if observed == BASELINE_COMPONENTS {
        return write_baseline(out, at, w, o);
    }
    if observed == HEIGHT_COMPONENTS {
        return write_height(out, at, w, o);
    }
    at
}

// The lines of the records, whose words start at o, and where the words after them start.
fn write_records(out: &mut [u8], at: usize, w: &[i64], o: usize, places: &[i64]) -> SheetPrinted
    requires { (places_length ≤ length places.now) × (record_start o (places_in places.now) 256 ≤ length w.now) × (at + 256 * baseline_room ≤ length out.old) }
    ensures written { Written out.old at (record_texts w.now o (places_in places.now) 256) result.next out.new }
    ensures next_bound { (result.next ≤ at + 256 * baseline_room) × (result.word ≡ record_start o (places_in places.now) 256) }
{
    let mut next = at;
    let mut word = o;
    for p in 0..Unit::PLACES {
        let r = network::record_at(places, p);
        next = write_record(out, next, w, word, r);
        word += sheet::words_in(r);
    }
    SheetPrinted { next, word }
}

// The printed sheet of n stations and the records of these places, from its words.
pub fn write_sheet(out: &mut [u8], w: &[i64], n: usize, places: &[i64]) -> usize
    requires { (n ≤ 32) × (places_length ≤ length places.now) × (global_start n (places_in places.now) + 3 ≤ length w.now) × (sheet_room ≤ length out.old) }
    ensures written { Written out.old 0 (sheet_text w.now n (places_in places.now)) result out.new }
    ensures upper_bound { result ≤ sheet_room }
{
    let head = write_head(out, 0, w);
    let stations = write_stations(out, head, w, n);
    let records = write_records(out, stations, w, 2 + n * 7, places);
    write_global(out, records.next, w, records.word)
}
