// Tests of the sizes in a list.
ghost use Rattle.std.specs.Prelude.{◌≡◌, leb, nat_abs, length};
ghost use Rattle.lists.specs.All.{all_below};
ghost use Rattle.acceptance.specs.Tests.{at};

// Whether the numbers are at most `limit` in size.
pub fn all_within(list: &[i64], limit: u64) -> bool
    ensures { result ≡ all_below (length list.now) (λ k. leb (nat_abs (at list.now k)) limit) }
{
    for v in list {
        if v.unsigned_abs() > limit {
            return false;
        }
    }
    true
}
