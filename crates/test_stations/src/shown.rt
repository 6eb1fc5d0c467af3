// What the program prints.
use book::{Book, Refusal};
use network::{Kind, Network, Station, Unit};

// Stays: private here, beside the like in other test programs: each stands alone, and a shared function could promise nothing of what it prints.
fn signed(v: i64) {
    io::write_all(1, b" ");
    if v < 0 {
        io::write_all(1, b"-");
    }
    io::print_decimal(1, v.unsigned_abs());
}

// The letters of the print: K known, F free, V height.
fn letter(kind: Kind) -> u8 {
    match kind {
        Kind::Known => b'K',
        Kind::Free => b'F',
        Kind::Height => b'V',
    }
}

fn station(number: usize, s: Station) {
    io::print_decimal(1, number as u64);
    io::write_all(1, &[b' ', letter(s.kind)]);
    signed(s.east);
    signed(s.north);
    signed(s.up);
    io::write_all(1, b"\n");
}

// The stations of a network, by number.
fn stations(net: Network) {
    for (s, x) in net.stations.iter().take(net.count).enumerate() {
        station(s + 1, *x);
    }
}

fn unknowns(net: Network) {
    let n = network::number_of(net.stations, Unit::COMPONENTS);
    io::print_decimal(1, n as u64);
    io::write_all(1, b" unknowns\n");
}

// What was opened, the refusal, and of an opened book what it holds.
pub(crate) fn show(what: &[u8], opened: Result<Book, Refusal>) {
    io::write_all(1, what);
    io::write_all(1, b": ");
    match opened {
        Ok(book) => {
            io::write_all(1, b"0\n");
            stations(book.network);
            unknowns(book.network);
        }
        Err(refusal) => {
            io::print_decimal(1, u64::from(refusal));
            io::write_all(1, b"\n");
        }
    }
}
