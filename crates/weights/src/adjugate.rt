// The determinant of a weight matrix, and the diagonal of its adjugate.
ghost use Rattle.std.specs.Prelude.{◌≡◌, ◌≤◌, nat_abs, ◌-ℤ◌, ◌*ℤ◌};
ghost use Rattle.weights.specs.Rules.{adjugate_e, adjugate_n, adjugate_u, determinant};
ghost use Rattle.weights.specs.Ranges.{SmallWeights};

use super::WeightMatrix;

// a·b − c·d.
pub fn minor(a: i64, b: i64, c: i64, d: i64) -> i64
    requires { (nat_abs a ≤ 10000) × (nat_abs b ≤ 10000) × (nat_abs c ≤ 10000) × (nat_abs d ≤ 10000) }
    ensures { result ≡ a *ℤ b -ℤ c *ℤ d }
{
    a * b - c * d
}

// The determinant by the first row.
pub fn determinant_of(w: WeightMatrix) -> i64
    requires { SmallWeights w }
    ensures { result ≡ determinant w }
{
    let x = minor(w.nn, w.uu, w.nu, w.nu);
    let y = minor(w.en, w.uu, w.nu, w.eu);
    let z = minor(w.en, w.nu, w.nn, w.eu);
    let e = w.ee * x;
    let n = w.en * y;
    let u = w.eu * z;
    e - n + u
}

// The diagonal of the adjugate of a weight matrix, and its determinant.
#[derive(Clone, Copy)]
pub struct Adjugate {
    pub east: i64,
    pub north: i64,
    pub up: i64,
    pub determinant: i64,
}

pub fn adjugate_of(w: WeightMatrix) -> Adjugate
    requires { SmallWeights w }
    ensures { (result.east ≡ adjugate_e w) × (result.north ≡ adjugate_n w) × (result.up ≡ adjugate_u w) × (result.determinant ≡ determinant w) }
{
    let determinant = determinant_of(w);
    let east = minor(w.nn, w.uu, w.nu, w.nu);
    let north = minor(w.ee, w.uu, w.eu, w.eu);
    let up = minor(w.ee, w.nn, w.en, w.en);
    Adjugate {
        east,
        north,
        up,
        determinant,
    }
}
