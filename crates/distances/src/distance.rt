// The values of a check distance: their ranges, and how far a squared distance may be from that of the tape.
ghost use Rattle.std.specs.Prelude.{◌≡◌, ◌≤◌, nat_abs};
ghost use Rattle.distances.specs.Distances.{distance_in_range, within_tolerance};

use super::CheckDistance;

// Every value is in its range.
pub fn in_range(d: CheckDistance) -> bool
    ensures { result ≡ distance_in_range d }
{
    (0..=CheckDistance::HEIGHT).contains(&d.instrument)
        & (0..=CheckDistance::HEIGHT).contains(&d.target)
        & (1..=CheckDistance::DISTANCE).contains(&d.distance)
        & (0..=CheckDistance::TOLERANCE).contains(&d.tolerance)
        & (d.tolerance < d.distance)
}

// (s − t)² ≤ squared ≤ (s + t)².
pub fn within_tolerance(s: i64, t: i64, squared: i64) -> bool
    requires { (nat_abs s ≤ 1800000000) × (nat_abs t ≤ 100000) }
    ensures { result ≡ within_tolerance s t squared }
{
    let near = (s - t) * (s - t);
    let far = (s + t) * (s + t);
    (near <= squared) & (squared <= far)
}
