// Fields: a field of a line is known by its start; it ends before the next blank, or where the line does.
ghost use Rattle.std.specs.Prelude.{◌≡◌, ◌+◌, ◌≤◌, length, drop};
ghost use Rattle.std.proofs.lemmas.List.Edits.{sets};
ghost use Rattle.text.specs.Before.{before};
ghost use Rattle.text.specs.Fields.{fields_of, first_field, rest_fields, only_byte, numbers_in, at_most, count_of, Stored};
ghost use Rattle.text.specs.Reading.{leading};

use super::numbers::number_of;

// Where the first b of s from `from` on is; the end of s where there is none.
pub fn find(s: &[u8], from: usize, b: u8) -> usize
    ensures { result ≡ from + length (before b (drop from s.now)) }
{
    for i in from..s.len() {
        if s[i] == b {
            return i;
        }
    }
    from.max(s.len())
}

// Where the field that starts at `from` ends. The next one starts after the blank there.
pub fn field_end(s: &[u8], from: usize) -> usize
    ensures { result ≡ from + length (first_field (drop from s.now)) }
{
    find(s, from, b' ')
}

// The one byte of the field that starts at `from`, where it has just one.
pub fn letter_at(s: &[u8], from: usize) -> Option<u8>
    ensures { result ≡ only_byte (first_field (drop from s.now)) }
{
    let end = field_end(s, from);
    if end - from == 1 { Some(s[from]) } else { None }
}

// How many numbers the fields of s are, where each is one and they are at most `most`.
fn count_numbers(s: &[u8], most: usize) -> Option<usize>
    ensures { result ≡ count_of (at_most most (numbers_in (fields_of s.now))) }
{
    let mut i = 0;
    for n in 0..most {
        let end = field_end(s, i);
        number_of(&s[i..end])?;
        if s.len() <= end {
            return Some(n + 1);
        }
        i = end + 1;
    }
    None
}

// The numbers at the front of s's fields into the front of out, as many as there is room for.
fn fill_numbers(s: &[u8], out: &mut [i64])
    ensures { out.new ≡ sets out.old 0 (leading (length out.old) (fields_of s.now)) }
{
    let mut i = 0;
    for x in out.iter_mut() {
        let end = field_end(s, i);
        let Some(v) = number_of(&s[i..end]) else {
            return;
        };
        *x = v;
        if s.len() <= end {
            return;
        }
        i = end + 1;
    }
}

// The numbers that the fields of s are, at most `most`, into the front of out.
fn read_numbers(s: &[u8], most: usize, out: &mut [i64]) -> Option<usize>
    requires { most ≤ length out.old }
    ensures { Stored out.old (at_most most (numbers_in (fields_of s.now))) result out.new }
{
    let n = count_numbers(s, most)?;
    fill_numbers(s, out);
    Some(n)
}

// The numbers that the fields after the one at `from` are, at most `most`, into the front of out.
pub fn read_rest(s: &[u8], from: usize, most: usize, out: &mut [i64]) -> Option<usize>
    requires { most ≤ length out.old }
    ensures { Stored out.old (at_most most (numbers_in (rest_fields (drop from s.now)))) result out.new }
{
    let end = field_end(s, from);
    if s.len() <= end {
        return Some(0);
    }
    read_numbers(&s[end + 1..], most, out)
}
