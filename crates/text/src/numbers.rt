// Decimal numbers read from the bytes of a field.
ghost use Rattle.std.specs.Prelude.{◌≡◌, ◌+◌, ◌-◌, ◌*◌, ◌≤◌, min};
ghost use Rattle.text.specs.Numbers.{zero_digit, nine_digit, number_in};
ghost use Rattle.text.specs.Digits.{cut_to, digits_of};

// 2^63 + 1, which is beyond signed 64 bits with either sign: to this a value is cut.
const BEYOND: u64 = i64::MAX as u64 + 2;

// One digit more, cut. Ten times more than a tenth of the cut is beyond it, so what is multiplied has room.
fn grow(n: u64, c: u8) -> u64
    requires { (zero_digit ≤ c) × (c ≤ nine_digit) }
    ensures { result ≡ min (n * 10 + (c - zero_digit)) cut_to }
{
    if n > BEYOND / 10 {
        return BEYOND;
    }
    (n * 10 + u64::from(c - b'0')).min(BEYOND)
}

// The value of s, where it is one digit or more.
fn digits(s: &[u8]) -> Option<u64>
    ensures { result ≡ digits_of s.now }
{
    if s.is_empty() {
        return None;
    }
    let mut n = 0;
    for c in s {
        if !c.is_ascii_digit() {
            return None;
        }
        n = grow(n, *c);
    }
    Some(n)
}

// What a field says as a number.
pub fn number_of(field: &[u8]) -> Option<i64>
    ensures { result ≡ number_in field.now }
{
    match field {
        [b'-', rest @ ..] => 0i64.checked_sub_unsigned(digits(rest)?),
        _ => i64::try_from(digits(field)?).ok(),
    }
}
