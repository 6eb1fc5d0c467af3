// Sets of numbers below 32, as the bits of a word.
// Stays: a set of the library takes memory from the heap, which this project does without.
ghost use Rattle.std.specs.Prelude.{◌≡◌, ◌<◌};
ghost use Rattle.chains.specs.Bits.{bit, set_bit};

// Whether s is in the set w.
pub fn has(w: u32, s: usize) -> bool
    requires { s < 32 }
    ensures { result ≡ bit w s }
{
    (w >> s) % 2 == 1
}

// w with s put in.
pub fn with(w: u32, s: usize) -> u32
    requires { s < 32 }
    ensures { result ≡ set_bit w s }
{
    if has(w, s) {
        return w;
    }
    w + (1 << s)
}
