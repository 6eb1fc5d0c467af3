// The observation equations of a record, from tables over the 96 components of the station list.
ghost use Rattle.std.specs.Prelude.{◌≡◌, ◌<◌, ◌≤◌, nat_abs};
ghost use Rattle.integers.specs.Tables.{Within};
ghost use Rattle.network.specs.Units.{most_stations, most_components};
ghost use Rattle.network.specs.RecordLaws.{Observed};
ghost use Rattle.normals.specs.Equations.{end_indices, coefs, equation_of};

use super::Equation;
use network::{Record, Unit};

// The unknowns at the six ends.
fn ends_of(at: &[usize; Unit::COMPONENTS], f: usize, t: usize) -> [usize; 6]
    requires { (f < most_stations) × (t < most_stations) }
    ensures { result ≡ end_indices at.now f t }
{
    let i = f * 3;
    let j = t * 3;
    [at[i], at[i + 1], at[i + 2], at[j], at[j + 1], at[j + 2]]
}

// Their coefficients, -1 at from and 1 at to, in all three components: where the record does not act its weights are 0. g is 1 where there is a from end.
fn coefs_of(unknown: &[i64; Unit::COMPONENTS], g: i64, f: usize, t: usize) -> [i64; 6]
    requires { (f < most_stations) × (t < most_stations) × Within most_components 1 unknown.now × (nat_abs g ≤ 1) }
    ensures { result ≡ coefs unknown.now g f t }
{
    let i = f * 3;
    let j = t * 3;
    [
        0 - g * unknown[i],
        0 - g * unknown[i + 1],
        0 - g * unknown[i + 2],
        unknown[j],
        unknown[j + 1],
        unknown[j + 2],
    ]
}

pub fn equation_of(
    at: &[usize; Unit::COMPONENTS],
    unknown: &[i64; Unit::COMPONENTS],
    coordinate: &[i64; Unit::COMPONENTS],
    r: Record,
) -> Equation
    requires { Observed coordinate.now r × Within most_components 1 unknown.now }
    ensures { result ≡ equation_of at.now unknown.now coordinate.now r }
{
    let f = network::from_of(r);
    let t = network::to_of(r);
    let a = ends_of(at, f, t);
    let g = network::joins_of(r);
    let c = coefs_of(unknown, g, f, t);
    let w = network::weights_of(r);
    let m = network::misclosures_of(coordinate, r);
    Equation {
        at: a,
        coef: c,
        weight: w,
        misclosure: m,
    }
}
