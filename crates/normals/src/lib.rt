// The normal equations: document 01's N = AᵀPA and u = AᵀPl of the records, from scratch and kept under the exchange of one record.
#![tactic(auto)]

ghost use Rattle.std.specs.Prelude.{◌≡◌, ◌≤◌, length, replicate, pos};
ghost use Rattle.network.specs.Units.{most_unknowns};
ghost use Rattle.network.specs.Places.{places_length, places_in};
ghost use Rattle.normals.specs.Formulas.{matrix_of, right_of, normals_of, matrix_length};
ghost use Rattle.normals.specs.ByRules.{ByRules};
ghost use Rattle.normals.specs.Blank.{blank_normals};
ghost use Rattle.normals.specs.Exchange.{Exchangeable, exchanged_n, exchanged_u};
ghost use Rattle.normals.specs.Same.{same_normals};

use network::{Network, Record, Unit};

mod equations;
mod records;
mod shares;

pub use shares::{end_term, exchange_of, pair_term};

// The observation equations of one record, which know no station. Its six ends are E, N, U at from, then E, N, U at to: end e has the
// unknown at[e] with the coefficient coef[e], which is 0 where the component is held. Weights by rows.
#[derive(Clone, Copy)]
pub struct Equation {
    pub at: [usize; 6],
    pub coef: [i64; 6],
    pub weight: [i64; 9],
    pub misclosure: [i64; 3],
}

// One of the amounts that an equation adds to N and u, and its entry, counted through N, by rows, and on through u.
#[derive(Clone, Copy)]
pub struct ShareTerm {
    pub entry: usize,
    pub amount: i64,
}

// The equations of a record that is taken off N and u, and of the one that is put on.
#[derive(Clone, Copy)]
pub struct Exchange {
    pub off: Equation,
    pub on: Equation,
}

// The unknowns of one station, in E, N, U: their numbers, and 1 where there is one. Both are 0 at a held component.
#[derive(Clone, Copy)]
struct StationUnknowns {
    at: [usize; 3],
    unknown: [i64; 3],
}

// N by rows, and u. Entries beyond the unknowns are 0.
#[derive(Clone, Copy)]
pub struct Normals {
    pub matrix: [i64; Normals::ENTRIES],
    pub right: [i64; Normals::ROW],
}

impl Normals {
    // The length of u and of a row of N: as many unknowns as a list may have.
    pub const ROW: usize = Unit::UNKNOWNS;
    // The entries of N.
    pub const ENTRIES: usize = Unit::UNKNOWNS * Unit::UNKNOWNS;

    // N and u of no records.
    pub fn blank() -> Normals
        ensures { result ≡ blank_normals }
    {
        Normals {
            matrix: [0i64; Normals::ENTRIES],
            right: [0i64; Normals::ROW],
        }
    }

    // N and u from scratch.
    pub fn of(net: Network, places: &[i64]) -> Normals
        requires { (places_length ≤ length places.now) × ByRules net (places_in places.now) }
        ensures { result ≡ normals_of net.stations (places_in places.now) }
    {
        let mut n = [0i64; Normals::ENTRIES];
        let mut u = [0i64; Normals::ROW];
        add_records(&mut n, &mut u, net, places);
        Normals {
            matrix: n,
            right: u,
        }
    }
}

// Makes N and u of no records those of the records. They are lent, so that who only compares them copies no N.
pub fn add_records(
    n: &mut [i64; Normals::ENTRIES],
    u: &mut [i64; Normals::ROW],
    net: Network,
    places: &[i64],
)
    requires { (places_length ≤ length places.now) × ByRules net (places_in places.now) × (n.old ≡ replicate matrix_length (pos 0)) × (u.old ≡ replicate most_unknowns (pos 0)) }
    ensures matrix { n.new ≡ matrix_of net.stations (places_in places.now) }
    ensures right { u.new ≡ right_of net.stations (places_in places.now) }
{
    let stations = net.stations;
    let at = network::numbers_of(stations);
    let unknown = network::unknowns_of(stations);
    let coordinate = network::coordinates_of(stations);
    for p in 0..Unit::PLACES {
        let r = network::record_at(places, p);
        let q = records::equation_of(&at, &unknown, &coordinate, r);
        equations::add_equation(n, u, q, 1);
    }
}

// Whether N and u are those of the records.
pub fn are_of(net: Network, places: &[i64], matrix: &[i64], right: &[i64]) -> bool
    requires { (places_length ≤ length places.now) × ByRules net (places_in places.now) × (length matrix.now ≡ matrix_length) × (length right.now ≡ most_unknowns) }
    ensures { result ≡ same_normals (record { matrix = matrix.entry.now; right = right.now }) (normals_of net.stations (places_in places.now)) }
{
    let mut n = [0i64; Normals::ENTRIES];
    let mut u = [0i64; Normals::ROW];
    add_records(&mut n, &mut u, net, places);
    matrix == n.as_slice() && right == u.as_slice()
}

// One record's share taken off N and u, and another's put on: at most 72 entries of N and 12 of u are touched.
pub fn exchange_shares(
    n: &mut [i64; Normals::ENTRIES],
    u: &mut [i64; Normals::ROW],
    net: Network,
    old: Record,
    new: Record,
)
    requires { Exchangeable net old new n.old u.old }
    ensures matrix { n.new ≡ exchanged_n net.stations old new n.old }
    ensures right { u.new ≡ exchanged_u net.stations old new u.old }
{
    let stations = net.stations;
    let at = network::numbers_of(stations);
    let unknown = network::unknowns_of(stations);
    let coordinate = network::coordinates_of(stations);
    let p = records::equation_of(&at, &unknown, &coordinate, old);
    let q = records::equation_of(&at, &unknown, &coordinate, new);
    equations::add_equation(n, u, p, -1);
    equations::add_equation(n, u, q, 1);
}
