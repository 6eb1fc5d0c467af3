// Writes a day file and a night file, reads them and parts of them, and asks for entries in force, which come back as parts of the two files; prints what came of it. The C calls cannot give a
// part, so tests/host does not reach this.
#![tactic(auto)]

ghost use Rattle.std.specs.Prelude.{◌≡◌, ◌*◌, ◌≤◌, length};

use files::{EntryFound, FileRefusal};

fn baseline(place: i64) -> [i64; 16] {
    [1, place, 1, 2, 10, -20, 30, 100, 0, 0, 100, 0, 100, 0, 0, 0]
}

fn height(place: i64, up: i64) -> [i64; 16] {
    [2, place, 1, 2, 0, 0, up, 0, 0, 0, 0, 0, 100, 0, 0, 0]
}

fn strike(place: i64) -> [i64; 16] {
    [3, place, 0, 0, 0, 0, 0, 0, 0, 0, 0, 0, 0, 0, 0, 0]
}

// A file of these entries, one after the other.
fn file_of<const N: usize>(entries: &[[i64; 16]]) -> [u8; N]
    requires { length entries.now * 128 ≤ N }
{
    let mut f = [0u8; N];
    for (k, entry) in entries.iter().enumerate() {
        files::write_entry(&mut f, k * 128, *entry);
    }
    f
}

// Four entries: places 1, 2, 1 again, and 4.
fn day_file() -> [u8; 512] {
    file_of(&[baseline(1), height(2, -42), height(1, 7), strike(4)])
}

// Three entries: places 256 and 2, and 2 struck.
fn night_file() -> [u8; 384] {
    file_of(&[height(256, -1), height(2, 5), strike(2)])
}

// Stays: private here, beside the like in other test programs: each stands alone, and a shared function could promise nothing of what it prints.
fn number(v: i64) {
    io::write_all(1, b" ");
    if v < 0 {
        io::write_all(1, b"-");
    }
    io::print_decimal(1, v.unsigned_abs());
}

fn reading(what: &[u8], f: &[u8]) {
    io::write_all(1, what);
    if files::holds_file(f) {
        io::write_all(1, b": reads\n");
    } else {
        io::write_all(1, b": does not read\n");
    }
}

// Which file, and the byte where the entry starts; or the refusal's number.
fn where_found(found: Result<EntryFound, FileRefusal>) {
    match found {
        Ok(EntryFound::InNight(at)) => {
            io::write_all(1, b" night file, byte ");
            io::print_decimal(1, at as u64);
        }
        Ok(EntryFound::InDay(at)) => {
            io::write_all(1, b" day file, byte ");
            io::print_decimal(1, at as u64);
        }
        Err(refusal) => {
            io::write_all(1, b" refused with");
            number(i64::from(refusal));
        }
    }
}

// The part's kind, place and U, if it is an entry.
fn shown(part: &[u8]) {
    if part.len() < 128 {
        io::write_all(1, b"; an empty part\n");
        return;
    }
    io::write_all(1, b"; kind, place, U:");
    number(words::word_at(part, 0));
    number(words::word_at(part, 8));
    number(words::word_at(part, 48));
    io::write_all(1, b"\n");
}

fn asked<'a>(night: &'a [u8], day: &'a [u8], place: i64) {
    io::write_all(1, b"place");
    number(place);
    io::write_all(1, b":");
    let found = files::find(night, day, place);
    where_found(found);
    let part = files::in_force(night, day, place);
    shown(part);
}

fn readings(day: [u8; 512], damaged: [u8; 512]) {
    reading(b"the day file", &day);
    reading(b"the day file without its last byte", &day[0..511]);
    reading(b"the day file without its last entry", &day[0..384]);
    reading(b"the day file without its first entry", &day[128..512]);
    reading(b"no bytes", &day[0..0]);
    reading(b"the day file with one bit of a weight changed", &damaged);
}

fn questions<'a>(night: &'a [u8], day: &'a [u8]) {
    for place in [1, 2, 3, 4, 256, 0, 257] {
        asked(night, day, place);
    }
    asked(day, night, 2);
}

fn unread(night: [u8; 384], day: [u8; 512], damaged: [u8; 512]) {
    asked(&night, &day[1..512], 256);
    asked(&night, &damaged, 256);
    asked(&damaged, &night, 256);
    asked(&night[0..0], &day[0..0], 256);
}

fn main() {
    let day = day_file();
    let night = night_file();
    let mut damaged = day_file();
    damaged[224] = 101;
    readings(day, damaged);
    questions(&night, &day);
    unread(night, day, damaged);
}
