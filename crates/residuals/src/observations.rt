// The observed components of a record, and their verdicts.
ghost use Rattle.std.specs.Prelude.{◌≡◌, ℕ, ◌<◌, pos, get_or};
ghost use Rattle.integers.specs.Tables.{Within};
ghost use Rattle.weights.specs.Quotients.{Quotient};
ghost use Rattle.network.specs.Units.{most_stations};
ghost use Rattle.network.specs.Records.{from_of, to_of};
ghost use Rattle.residuals.specs.Weights.{RecordWeights};
ghost use Rattle.residuals.specs.Observations.{Divided, adjugate_entry, Observes, verdicts_in};

use super::{Covariances, Observation};
use network::Record;
use weights::Adjugate;

// What a record's variances are worked out from: of a matrix its adjugate and determinant, of a single weight 1 over it, and 0 over 1 where there is no record.
fn adjugate_in(r: Record) -> Adjugate
    requires { RecordWeights r }
    ensures { Divided r result }
{
    let w = network::weight_matrix_of(r);
    match network::observations_of(r) {
        0 => Adjugate {
            east: 0,
            north: 0,
            up: 0,
            determinant: 1,
        },
        1 => Adjugate {
            east: 1,
            north: 1,
            up: 1,
            determinant: w.uu,
        },
        _ => weights::adjugate_of(w),
    }
}

fn entry(w: Adjugate, a: usize) -> i64
    requires { (a < 3) × ((k : ℕ) → Quotient (adjugate_entry w k) w.determinant) }
    ensures { result ≡ adjugate_entry w a }
{
    match a {
        0 => w.east,
        1 => w.north,
        _ => w.up,
    }
}

// Component a of a record with the residuals v.
fn observation_of(r: Record, w: Adjugate, v: [i64; 3], a: usize) -> Observation
    requires { (a < 3) × (from_of r < most_stations) × (to_of r < most_stations) × Divided r w × Within 3 300000 v }
    ensures { Observes r a (get_or v a (pos 0)) result }
{
    let residual = v[a];
    let adjugate = entry(w, a);
    let to = network::to_of(r) * 3 + a;
    let from = network::from_of(r) * 3 + a;
    let joins = network::joins_of(r);
    Observation {
        residual,
        adjugate,
        determinant: w.determinant,
        to,
        from,
        joins,
    }
}

// The verdicts in E, N, U of a record with the residuals v; 0 where it does not act. A record acts in U alone or in all three.
pub fn verdicts_of(r: Record, v: [i64; 3], c: Covariances) -> [i64; 3]
    requires { (from_of r < most_stations) × (to_of r < most_stations) × RecordWeights r × Within 3 300000 v }
    ensures { result ≡ verdicts_in c.entry.number.now c.entry.unknown.now c.entry.m.now c.entry.n r v }
{
    if network::is_empty(r) {
        return [0, 0, 0];
    }
    let w = adjugate_in(r);
    let up = observation_of(r, w, v, 2);
    let z = c.verdict_at(up);
    if network::acts_in(r, 0) {
        let east = observation_of(r, w, v, 0);
        let x = c.verdict_at(east);
        let north = observation_of(r, w, v, 1);
        let y = c.verdict_at(north);
        return [x, y, z];
    }
    [0, 0, z]
}
