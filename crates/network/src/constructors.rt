// A record by its numbers: the one constructor of each kind.
ghost use Rattle.std.specs.Prelude.{◌≡◌};
ghost use Rattle.network.specs.Records.{baseline_of, height_of, position_of};

use super::{Baseline, Level, Position, Record};

// A baseline: the observed differences E, N, U, the weights EE, EN, EU, NN, NU, UU, and the antenna heights, from first.
pub fn baseline_of(
    from: i64,
    to: i64,
    observed: [i64; 3],
    weights: [i64; 6],
    heights: [i64; 2],
) -> Record
    ensures { result ≡ baseline_of from to observed weights heights }
{
    let [east, north, up] = observed;
    let [ee, en, eu, nn, nu, uu] = weights;
    let [hf, ht] = heights;
    Record::Baseline(Baseline {
        from,
        to,
        east,
        north,
        up,
        ee,
        en,
        eu,
        nn,
        nu,
        uu,
        hf,
        ht,
    })
}

// A height difference.
pub fn height_of(from: i64, to: i64, up: i64, weight: i64) -> Record
    ensures { result ≡ height_of from to up weight }
{
    Record::Height(Level {
        from,
        to,
        up,
        weight,
    })
}

// A position: the observed coordinates E, N, U, and the weights EE, EN, EU, NN, NU, UU.
pub fn position_of(station: i64, observed: [i64; 3], weights: [i64; 6]) -> Record
    ensures { result ≡ position_of station observed weights }
{
    let [east, north, up] = observed;
    let [ee, en, eu, nn, nu, uu] = weights;
    Record::Position(Position {
        station,
        east,
        north,
        up,
        ee,
        en,
        eu,
        nn,
        nu,
        uu,
    })
}
