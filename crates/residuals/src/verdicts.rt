// The verdicts: the local test of a residual, the global test, and the words that stand for them on a sheet.
ghost use Rattle.std.specs.Prelude.{◌≡◌, ◌≤◌, ◌<◌, ◌^◌, nat_abs, get_or};
ghost use Rattle.residuals.specs.Verdicts.{verdict_word, local_verdict, chi_square, limits, global_verdict};

use super::{Limits, Verdict};

// 95% chi-square limits for 1 to 30 degrees of freedom.
const CHI_SQUARE: [Limits; 30] = [
    Limits {
        lower: 1,
        upper: 5024,
    },
    Limits {
        lower: 51,
        upper: 7378,
    },
    Limits {
        lower: 216,
        upper: 9348,
    },
    Limits {
        lower: 484,
        upper: 11143,
    },
    Limits {
        lower: 831,
        upper: 12833,
    },
    Limits {
        lower: 1237,
        upper: 14449,
    },
    Limits {
        lower: 1690,
        upper: 16013,
    },
    Limits {
        lower: 2180,
        upper: 17535,
    },
    Limits {
        lower: 2700,
        upper: 19023,
    },
    Limits {
        lower: 3247,
        upper: 20483,
    },
    Limits {
        lower: 3816,
        upper: 21920,
    },
    Limits {
        lower: 4404,
        upper: 23337,
    },
    Limits {
        lower: 5009,
        upper: 24736,
    },
    Limits {
        lower: 5629,
        upper: 26119,
    },
    Limits {
        lower: 6262,
        upper: 27488,
    },
    Limits {
        lower: 6908,
        upper: 28845,
    },
    Limits {
        lower: 7564,
        upper: 30191,
    },
    Limits {
        lower: 8231,
        upper: 31526,
    },
    Limits {
        lower: 8907,
        upper: 32852,
    },
    Limits {
        lower: 9591,
        upper: 34170,
    },
    Limits {
        lower: 10283,
        upper: 35479,
    },
    Limits {
        lower: 10982,
        upper: 36781,
    },
    Limits {
        lower: 11689,
        upper: 38076,
    },
    Limits {
        lower: 12401,
        upper: 39364,
    },
    Limits {
        lower: 13120,
        upper: 40646,
    },
    Limits {
        lower: 13844,
        upper: 41923,
    },
    Limits {
        lower: 14573,
        upper: 43195,
    },
    Limits {
        lower: 15308,
        upper: 44461,
    },
    Limits {
        lower: 16047,
        upper: 45722,
    },
    Limits {
        lower: 16791,
        upper: 46979,
    },
];

// The word that stands for a verdict on a sheet.
impl From<Verdict> for i64 {
    ghost from_gives = { λ v w. w ≡ verdict_word v };

    fn from(v: Verdict) -> i64 {
        match v {
            Verdict::Pass => 0,
            Verdict::Fail => 1,
            Verdict::Loose => 2,
            Verdict::Low => 3,
            Verdict::High => 4,
            Verdict::NoVerdict => 5,
        }
    }
}

// The local test of a residual v whose variance is q.
pub fn local_verdict(v: i64, q: i64) -> Verdict
    requires { (nat_abs v ≤ 300000) × (nat_abs q ≤ 2 ^ 40) }
    ensures { result ≡ local_verdict v q }
{
    if q < 16384 {
        return Verdict::Loose;
    }
    if 60025 * q < v * v * 16777216 {
        return Verdict::Fail;
    }
    Verdict::Pass
}

// The limits at k + 1 degrees of freedom.
fn limits_at(k: usize) -> Limits
    requires { k < 30 }
    ensures { result ≡ get_or chi_square k (limits 0 0) }
{
    CHI_SQUARE[k]
}

// The global test of T at d degrees of freedom.
pub fn global_verdict(t: i64, d: i64) -> Verdict
    ensures { result ≡ global_verdict t d }
{
    let k = words::index_in(d, 30);
    if 30 <= k {
        return Verdict::NoVerdict;
    }
    let pair = limits_at(k);
    if t < 1000 * pair.lower {
        return Verdict::Low;
    }
    if 1000 * pair.upper < t {
        return Verdict::High;
    }
    Verdict::Pass
}
