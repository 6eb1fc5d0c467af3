// The search for what chains of edges join to a start. An edge's ends, below 32, stand in one number: from · 32 + to.
// Stays: the definition `edge` of specs/Chains, which `is_tied` rests on, gives an edge as that number.
ghost use Rattle.std.specs.Prelude.{◌≡◌, ◌<◌};
ghost use Rattle.network.specs.Units.{most_stations, place_count};
ghost use Rattle.chains.specs.Search.{join, pass, Found};
ghost use Rattle.chains.specs.Chains.{from_end, to_end};
ghost use Rattle.chains.specs.ChainLaws.{Low};

use super::sets::{has, with};
use network::Unit;

// One edge: where an end is in the set, the other is put in.
fn join_ends(w: u32, a: usize, b: usize) -> u32
    requires { (a < most_stations) × (b < most_stations) }
    ensures { result ≡ join w a b }
{
    if has(w, a) {
        return with(w, b);
    }
    if has(w, b) {
        return with(w, a);
    }
    w
}

// One pass over the edges.
fn one_pass(edges: &[usize; Unit::PLACES], w: u32) -> u32
    requires { Low edges.now }
    ensures { result ≡ pass (from_end edges.now) (to_end edges.now) place_count w }
{
    let mut v = w;
    for e in edges {
        v = join_ends(v, *e / Unit::STATIONS, *e % Unit::STATIONS);
    }
    v
}

// The numbers that chains of edges join to one of the set h.
pub fn search(edges: &[usize; Unit::PLACES], h: u32) -> u32
    requires { Low edges.now }
    ensures { Found (from_end edges.now) (to_end edges.now) place_count h result }
{
    let mut w = h;
    // Stays: a `for` is no plainer, since the number of passes is known only when one changes nothing.
    loop {
        let v = one_pass(edges, w);
        if v == w {
            return w;
        }
        w = v;
    }
}
