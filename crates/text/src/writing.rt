// Text written into a lent buffer: each call takes the position to write at and gives the position after.
ghost use Rattle.std.specs.Prelude.{◌∷◌, [], ◌+◌, ◌≤◌, ◌<◌, length};
ghost use Rattle.text.specs.Numbers.{most_digits, decimal_in, decimal};
ghost use Rattle.text.specs.Writing.{natural_room, number_room, Written};

// The digits of the longest number of 64 bits; room for it with a sign.
pub const MOST_DIGITS: usize = 20;

pub const NUMBER_ROOM: usize = MOST_DIGITS + 1;

pub fn write_byte(out: &mut [u8], at: usize, c: u8) -> usize
    requires { at < length out.old }
    ensures { Written out.old at (c ∷ []) result out.new }
{
    out[at] = c;
    at + 1
}

pub fn write_text(out: &mut [u8], at: usize, text: &[u8]) -> usize
    requires { at + length text.now ≤ length out.old }
    ensures { Written out.old at text.now result out.new }
{
    let end = at + text.len();
    out[at..end].copy_from_slice(text);
    end
}

// The decimal digits of n, k of them at most.
fn write_digits(out: &mut [u8], at: usize, n: u64, k: usize) -> usize
    requires { at + k ≤ length out.old }
    ensures written { Written out.old at (decimal_in k n) result out.new }
    ensures upper_bound { result ≤ at + k }
{
    if k == 0 {
        return at;
    }
    if n < 10 {
        return write_byte(out, at, b'0' + n as u8);
    }
    let p = write_digits(out, at, n / 10, k - 1);
    write_byte(out, p, b'0' + (n % 10) as u8)
}

// n in decimal.
pub fn write_natural(out: &mut [u8], at: usize, n: u64) -> usize
    requires { at + natural_room ≤ length out.old }
    ensures written { Written out.old at (decimal_in most_digits n) result out.new }
    ensures upper_bound { result ≤ at + natural_room }
{
    write_digits(out, at, n, MOST_DIGITS)
}

// v in decimal.
pub fn write_number(out: &mut [u8], at: usize, v: i64) -> usize
    requires { at + number_room ≤ length out.old }
    ensures written { Written out.old at (decimal v) result out.new }
    ensures upper_bound { result ≤ at + number_room }
{
    let n = v.unsigned_abs();
    if v < 0 {
        let p = write_byte(out, at, b'-');
        return write_digits(out, p, n, MOST_DIGITS);
    }
    write_digits(out, at, n, MOST_DIGITS)
}
