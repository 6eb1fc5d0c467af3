// Cases that differ in one number: the same values but for it.

// These values with v at an index; beyond the end nothing is in its place.
pub(crate) fn with<const N: usize>(mut values: [i64; N], at: usize, v: i64) -> [i64; N] {
    if let Some(there) = values.get_mut(at) {
        *there = v;
    }
    values
}

// Shows each of these numbers in turn at an index.
fn each_at<F: Fn(usize, i64)>(at: usize, numbers: &[i64], show: &F)
    requires { F.IsAlwaysCallable show.now }
{
    for number in numbers {
        show(at, *number);
    }
}

// The same at each of these indices.
pub(crate) fn each<F: Fn(usize, i64)>(indices: &[usize], numbers: &[i64], show: F)
    requires { F.IsAlwaysCallable show }
{
    for at in indices {
        each_at(*at, numbers, &show);
    }
}
