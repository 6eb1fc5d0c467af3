// Signed numbers: a number in a list as an index, and the bits.
ghost use Rattle.std.specs.Prelude.{◌≡◌};
ghost use Rattle.words.specs.Signed.{index_in, signed, unsigned};

// The index from 0 of the number v, which counts from 1 to n; n where v is no such number.
// Stays: n for a number that is none is what the definition `index_in` has, and with it `from_of`, `to_of`, `place_of` and the theorems over them.
pub fn index_in(v: i64, n: usize) -> usize
    ensures { result ≡ index_in v n }
{
    let k = usize::try_from(v).unwrap_or(0);
    if k == 0 {
        return n;
    }
    if k <= n { k - 1 } else { n }
}

// The number whose two's complement bits are those of n.
pub fn to_signed(n: u64) -> i64
    ensures { result ≡ signed n }
{
    n.cast_signed()
}

// The two's complement bits of v, as a number.
pub fn to_unsigned(v: i64) -> u64
    ensures { result ≡ unsigned v }
{
    v.cast_unsigned()
}
