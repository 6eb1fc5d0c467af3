// Jobs that bench/ measures, each with a contract that settles its result. They are not part of the product.
#![tactic(auto)]

ghost use Rattle.std.specs.Prelude.{◌≡◌, ◌<◌};
ghost use Rattle.network.specs.Units.{place_count};
ghost use Rattle.network.specs.Places.{places_in};
ghost use Rattle.normals.specs.Formulas.{normals_of};
ghost use Rattle.bench_kernels.specs.Replays.{Replays};
ghost use Rattle.bench_kernels.specs.Sample.{sample_network, sample_record, sample_places, entry_at};

use network::{Kind, Network, Place, Record, Station, Unit};
use normals::Normals;

#[tactic(auto, unfolding(crate::specs::Sample::sample_network))]
fn sample_network() -> Network
    ensures { result ≡ sample_network }
{
    let known = Station {
        kind: Kind::Known,
        east: 0,
        north: 0,
        up: 0,
    };
    let free = Station {
        kind: Kind::Free,
        ..known
    };
    let mut stations = [known; Unit::STATIONS];
    stations[1..17].fill(free);
    Network {
        count: 17,
        stations,
    }
}

#[tactic(auto, unfolding(crate::specs::Sample::sample_baseline))]
fn sample_record(p: usize) -> Record
    requires { p < place_count }
    ensures { result ≡ sample_record p }
{
    let f = p % 17 + 1;
    let t = (f + p / 17) % 17 + 1;
    network::baseline_of(
        f as i64,
        t as i64,
        [p as i64; 3],
        [100, 10, -10, 100, 10, 100],
        [0; 2],
    )
}

// The places of the sample in words, to be lent.
fn sample_places() -> [i64; Place::LENGTH]
    ensures { places_in result ≡ sample_places }
{
    let mut places = [0i64; Place::LENGTH];
    for p in 0..Unit::PLACES {
        let w = network::record_words(sample_record(p));
        lists::paste(&mut places, p * Record::LENGTH, &w);
    }
    places
}

// N and u of the sample from scratch; entry k of N by rows, then of u.
#[unsafe(no_mangle)]
pub extern "C" fn bench_normals(k: usize) -> i64
    ensures { result ≡ entry_at (normals_of sample_network.stations sample_places) k }
{
    let net = sample_network();
    let places = sample_places();
    let x = Normals::of(net, &places);
    if k < Normals::ENTRIES {
        return x.matrix[k];
    }
    let i = k - Normals::ENTRIES;
    if i < Normals::ROW {
        return x.right[i];
    }
    0
}

// A replay, from numbers: opens a book on the list, applies the rows of calls and writes their answers; gives the refusal of the opening, 0 for none.
#[unsafe(no_mangle)]
pub extern "C" fn bench_replay(list: &[i64], calls: &[i64], answers: &mut [i64]) -> u64
    ensures { Replays list.now calls.now answers.old answers.new result }
{
    match book::replay(list, calls, answers) {
        Ok(_) => 0,
        Err(refusal) => u64::from(refusal),
    }
}
