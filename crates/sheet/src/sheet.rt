// The sheet of an accepted pair, written in its order.
ghost use Rattle.std.specs.Prelude.{◌≡◌, [], ◌∷◌, ◌++◌, ◌+◌, ◌*◌, ◌≤◌, pos, length, drop};
ghost use Rattle.lists.specs.Pasted.{pasted};
ghost use Rattle.network.specs.Units.{most_stations, most_components, place_count};
ghost use Rattle.network.specs.Places.{places_length, places_in};
ghost use Rattle.residuals.specs.Ranges.{Moved, Solved, Inverse};
ghost use Rattle.sheet.specs.Sheet.{station_lines_words, record_lines_words, sheet_words, room};
ghost use Rattle.sheet.specs.Totals.{word_count};
ghost use Rattle.residuals.specs.Verdicts.{verdict_word, global_verdict};

use super::{lines, tables, totals};
use network::{Network, Unit};
use residuals::Covariances;

// The stations' lines, stored from index `from` on.
fn put_stations(sheet: &mut [i64], from: usize, net: Network, x: &[i64], m: &[i64])
    requires { Moved net x.now × Inverse net m.now × (from + 7 * net.count ≤ length sheet.old) }
    ensures { sheet.new ≡ pasted sheet.old from (station_lines_words net.stations x.now m.now net.count) }
{
    let t = tables::tables_of(net.stations, x);
    let coordinate = &t.coordinate;
    let correction = &t.correction;
    let covariances = Covariances {
        number: &t.number,
        unknown: &t.unknown,
        m,
        n: t.n,
    };
    let mut at = from;
    for s in 0..net.count {
        let x = residuals::adjusted_station(coordinate, correction, s);
        let e = covariances.variances_of(s);
        let line = lines::seven_words(s, x, e);
        at = lines::put_line(sheet, at, &line);
    }
}

// The records' lines, stored from index `from` on.
fn put_records(sheet: &mut [i64], from: usize, net: Network, places: &[i64], x: &[i64], m: &[i64])
    requires { (places_length ≤ length places.now) × Solved net (places_in places.now) x.now × Inverse net m.now × (from + word_count (places_in places.now) ≤ length sheet.old) }
    ensures { sheet.new ≡ pasted sheet.old from (record_lines_words net.stations x.now m.now (places_in places.now) place_count) }
{
    let t = tables::tables_of(net.stations, x);
    let coordinate = &t.coordinate;
    let correction = &t.correction;
    let covariances = Covariances {
        number: &t.number,
        unknown: &t.unknown,
        m,
        n: t.n,
    };
    let mut at = from;
    for p in 0..Unit::PLACES {
        let r = network::record_at(places, p);
        let v = residuals::residuals_of(coordinate, correction, r);
        let w = residuals::verdicts_of(r, v, covariances);
        at = lines::put_record(sheet, at, p, r, v, w);
    }
}

// The first line: how many records and unknowns.
fn count_line(records: usize, n: usize) -> [i64; 2]
    requires { (records ≤ place_count) × (n ≤ most_components) }
    ensures { result ≡ pos records ∷ pos n ∷ [] }
{
    let a = records as i64;
    let b = n as i64;
    [a, b]
}

// The last line: the global test.
fn global_line(t: i64, d: i64) -> [i64; 3]
    ensures { result ≡ t ∷ d ∷ verdict_word (global_verdict t d) ∷ [] }
{
    let w = i64::from(residuals::global_verdict(t, d));
    [t, d, w]
}

// The sheet, stored at the front of the lent words; the words beyond stay.
pub fn write_sheet(net: Network, places: &[i64], x: &[i64], m: &[i64], sheet: &mut [i64])
    requires { (places_length ≤ length places.now) × Solved net (places_in places.now) x.now × Inverse net m.now × (room net (places_in places.now) ≤ length sheet.old) }
    ensures { sheet.new ≡ sheet_words net (places_in places.now) x.now m.now ++ drop (room net (places_in places.now)) sheet.old }
{
    let counts = totals::counts_of(places);
    let stations = net.stations;
    let n = network::number_of(stations, Unit::COMPONENTS);
    let t = totals::t_of(net, places, x);
    let d = totals::d_of(net, places);
    let first = count_line(counts.records, n);
    let last = global_line(t, d);
    let at = 2 + 7 * net.count;
    lists::paste(sheet, 0, &first);
    put_stations(sheet, 2, net, x, m);
    put_records(sheet, at, net, places, x, m);
    lists::paste(sheet, at + counts.words, &last);
}

// The words that the sheet takes.
pub fn room_of(net: Network, places: &[i64]) -> usize
    requires { (places_length ≤ length places.now) × (net.count ≤ most_stations) }
    ensures { result ≡ room net (places_in places.now) }
{
    let counts = totals::counts_of(places);
    5 + 7 * net.count + counts.words
}
