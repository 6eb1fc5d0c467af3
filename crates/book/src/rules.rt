// The rules of records over one station list: the list, which is by its own rules, and its provisional coordinates, worked out once.
ghost use Rattle.std.specs.Prelude.{◌≡◌, true, false, not, ◌&&◌, MatchOption};
ghost use Rattle.network.specs.Stations.{coordinates, network_fits};
ghost use Rattle.network.specs.Records.{is_empty};
ghost use Rattle.network.specs.Rules.{record_fits};

use network::{Network, Record, Unit};

#[derive(Clone, Copy)]
pub(crate) struct Rules {
    pub network: Network,
    coordinate: [i64; Unit::COMPONENTS],
    pub ghost network_by_rules: { network_fits network ≡ true },
    ghost worked_out: { coordinate ≡ coordinates network.stations },
}

impl Rules {
    // Those over a list; none where it is not by its own.
    pub fn of(network: Network) -> Option<Rules>
        ensures { MatchOption result (network_fits network ≡ false) (λ r. r.network ≡ network) }
    {
        if !network::network_fits(network) {
            return None;
        }
        let coordinate = network::coordinates_of(network.stations);
        Some(Rules {
            network,
            coordinate,
        })
    }

    // A place may hold the record.
    pub fn fit(&self, r: Record) -> bool
        ensures { result ≡ record_fits self.now.network r }
    {
        network::record_fits_over(self.network.count, &self.coordinate, r)
    }

    // `prior` may be restored to a place: it is by the rules, and does not take an empty place back to empty.
    pub fn restores(&self, empty: bool, prior: Record) -> bool
        ensures { result ≡ (record_fits self.now.network prior && not (empty && is_empty prior)) }
    {
        self.fit(prior) & !(empty & network::is_empty(prior))
    }
}
