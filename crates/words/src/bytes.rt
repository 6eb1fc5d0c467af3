// One word in a slice of bytes.
ghost use Rattle.std.specs.Prelude.{◌≡◌, ◌+◌, ◌≤◌, length};
ghost use Rattle.words.specs.Words.{word_at, put_word};

// The word of s whose first byte is at index at.
#[tactic(auto, using(crate::proofs::EightBytes::read, crate::proofs::EightBytes::whole))]
pub fn word_at(s: &[u8], at: usize) -> i64
    requires { at + 8 ≤ length s.now }
    ensures { result ≡ word_at s.now at }
{
    i64::from_le_bytes(<[u8; 8]>::try_from(&s[at..at + 8]).unwrap())
}

// Puts v into s as the word whose first byte is at index at.
#[tactic(auto, using(crate::proofs::EightBytes::written))]
pub fn put_word(s: &mut [u8], at: usize, v: i64)
    requires { at + 8 ≤ length s.old }
    ensures { s.new ≡ put_word s.old at v }
{
    s[at..at + 8].copy_from_slice(&v.to_le_bytes());
}
