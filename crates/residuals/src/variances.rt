// Variances from M and from the weights, and the local test of a residual.
ghost use Rattle.std.specs.Prelude.{◌≡◌, ◌+◌, ◌*◌, ◌<◌, ◌≤◌, nat_abs, ◌*ℤ◌};
ghost use Rattle.integers.specs.Division.{floor_div};
ghost use Rattle.weights.specs.Quotients.{Quotient};
ghost use Rattle.integers.specs.Inverses.{S};
ghost use Rattle.network.specs.Units.{most_stations, most_components};
ghost use Rattle.residuals.specs.Components.{covariance_in, variances_in, difference_in, Lookup};
ghost use Rattle.residuals.specs.Observations.{Testable, verdict_of};

use super::{Observation, verdicts};
use network::Unit;

// M over the components of the station list: the number of each component among the n unknowns, 1 for an unknown and 0 for a held one, and M, n rows of n.
#[derive(Clone, Copy)]
pub struct Covariances<'a> {
    pub number: &'a [usize; Unit::COMPONENTS],
    pub unknown: &'a [i64; Unit::COMPONENTS],
    pub m: &'a [i64],
    pub n: usize,
    pub ghost looked_up: { Lookup number.now unknown.now m.now n },
}

impl<'a> Covariances<'a> {
    // M at the components q and k, 0 where one of them is held.
    fn covariance(self, q: usize, k: usize) -> i64
        requires { (q < most_components) × (k < most_components) }
        ensures { result ≡ covariance_in self.entry.number.now self.entry.unknown.now self.entry.m.now self.entry.n q k }
    {
        let i = self.number[q] * self.n + self.number[k];
        self.unknown[q] * self.unknown[k] * self.m[i]
    }

    // The variances of station s in E, N, U.
    pub fn variances_of(self, s: usize) -> [i64; 3]
        requires { s < most_stations }
        ensures { result ≡ variances_in self.entry.number.now self.entry.unknown.now self.entry.m.now self.entry.n s }
    {
        let q = s * 3;
        let x = self.covariance(q, q);
        let y = self.covariance(q + 1, q + 1);
        let z = self.covariance(q + 2, q + 2);
        [x, y, z]
    }

    // The variance of the adjusted difference between the ends of an observation.
    fn difference_variance(self, o: Observation) -> i64
        requires { (o.to < most_components) × (o.from < most_components) × (nat_abs o.joins ≤ 1) }
        ensures { result ≡ difference_in self.entry.number.now self.entry.unknown.now self.entry.m.now self.entry.n o.to o.from o.joins }
    {
        let t = o.to;
        let f = o.from;
        let to = self.covariance(t, t);
        let from = self.covariance(f, f);
        let upper = self.covariance(t, f);
        let lower = self.covariance(f, t);
        to + o.joins * (from - upper - lower)
    }

    // The local verdict of an observation, as its word.
    pub(crate) fn verdict_at(self, o: Observation) -> i64
        requires { Testable o }
        ensures { result ≡ verdict_of self.entry.number.now self.entry.unknown.now self.entry.m.now self.entry.n o }
    {
        let w = observation_variance(o.adjugate, o.determinant);
        let d = self.difference_variance(o);
        let q = w - d;
        i64::from(verdicts::local_verdict(o.residual, q))
    }
}

// The variance of an observed component, whose adjugate entry and determinant these are, over S; rounded down.
fn observation_variance(adj: i64, det: i64) -> i64
    requires { Quotient adj det }
    ensures { result ≡ floor_div (S *ℤ adj) (nat_abs det) }
{
    Unit::SCALE * adj / det
}
