// One edit in place: bytes that hold a book are changed where the edited book differs.
ghost use Rattle.std.specs.Prelude.{◌≡◌, true, ◌*◌, ◌<◌, ◌≤◌, ◌^◌, length, get_or, set, pos, nat_abs, ◌+ℤ◌};
ghost use Rattle.integers.specs.Tables.{plus, Within};
ghost use Rattle.words.specs.Words.{put_word};
ghost use Rattle.words.specs.Runs.{put_words};
ghost use Rattle.network.specs.Rules.{record_fits};
ghost use Rattle.normals.specs.Equations.{EquationInRange, ends_of};
ghost use Rattle.normals.specs.ShareTerms.{pairs_from, rows_from, ends_from, share_from};
ghost use Rattle.book.specs.Journal.{journal_size};
ghost use Rattle.book.specs.Book.{with_entry, with_record};
ghost use Rattle.layout.specs.Layout.{matrix_start, book_length, book_bytes};
ghost use Rattle.layout.specs.Bytes.{words_of, book_of, put_book, bytes_fit};
ghost use Rattle.layout.specs.BookPatches.{with_normals};

use super::offsets::Layout;
use super::{reading, writing};
use book::Reversal;
use network::{Network, Record};
use normals::Equation;

// v more in word k.
fn add_to_word(s: &mut [u8], k: usize, v: i64)
    requires { (book_bytes ≤ length s.old) × (k < book_length) × (nat_abs (get_or (words_of s.old) k (pos 0)) ≤ 2 ^ 42) × (nat_abs v ≤ 2 ^ 42) }
    ensures { s.new ≡ put_word s.old (8 * k) (get_or (words_of s.old) k (pos 0) +ℤ v) }
{
    let x = reading::word_in(s, k);
    words::put_word(s, 8 * k, x + v);
}

// To N, the pairs of end e with each of the six.
// Stays: three slices in place of an equation, as `pair_term` takes them.
fn add_pairs(s: &mut [u8], at: &[usize; 6], coef: &[i64; 6], weight: &[i64; 9], e: usize, sign: i64)
    requires { (book_bytes ≤ length s.old) × (e < 6) × EquationInRange (ends_of at.now coef.now weight.now) × (nat_abs sign ≤ 1) × Within book_length (2 ^ 41) (words_of s.old) }
    ensures { s.new ≡ put_words s.old 0 (plus book_length (words_of s.old) sign (pairs_from matrix_start (ends_of at.now coef.now weight.now) e 6)) }
{
    for f in 0..6 {
        let t = normals::pair_term(at, coef, weight, e, f);
        let k = Layout::MATRIX_START + t.entry;
        let v = sign * t.amount;
        add_to_word(s, k, v);
    }
}

fn add_rows(s: &mut [u8], equation: Equation, sign: i64)
    requires { (book_bytes ≤ length s.old) × EquationInRange equation × (nat_abs sign ≤ 1) × Within book_length (2 ^ 40) (words_of s.old) }
    ensures { s.new ≡ put_words s.old 0 (plus book_length (words_of s.old) sign (rows_from matrix_start equation 6)) }
{
    for e in 0..6 {
        add_pairs(s, &equation.at, &equation.coef, &equation.weight, e, sign);
    }
}

// To u, the six ends.
fn add_ends(s: &mut [u8], equation: Equation, sign: i64)
    requires { (book_bytes ≤ length s.old) × EquationInRange equation × (nat_abs sign ≤ 1) × Within book_length (2 ^ 41) (words_of s.old) }
    ensures { s.new ≡ put_words s.old 0 (plus book_length (words_of s.old) sign (ends_from matrix_start equation 6)) }
{
    for e in 0..6 {
        let t = normals::end_term(equation, e);
        let k = Layout::MATRIX_START + t.entry;
        let v = sign * t.amount;
        add_to_word(s, k, v);
    }
}

// A record's share added to N and u, or taken off: no other word is read or written. `sign` is 1 or -1.
fn add_share(s: &mut [u8], equation: Equation, sign: i64)
    requires { (book_bytes ≤ length s.old) × EquationInRange equation × (nat_abs sign ≤ 1) × Within book_length (2 ^ 40) (words_of s.old) }
    ensures { s.new ≡ put_words s.old 0 (plus book_length (words_of s.old) sign (share_from matrix_start equation)) }
{
    add_rows(s, equation, sign);
    add_ends(s, equation, sign);
}

// The share of N and u of the record r for that of what place i holds. The network comes with the bytes, since who edits has read it.
fn exchange(s: &mut [u8], net: Network, i: usize, r: Record)
    requires { (bytes_fit s.old ≡ true) × (net ≡ (book_of s.old).network) × (i < 256) × (record_fits (book_of s.old).network r ≡ true) }
    ensures { s.new ≡ put_book s.old (with_normals (book_of s.old) (with_record (book_of s.old) i r).matrix (with_record (book_of s.old) i r).right) }
{
    let old = reading::record_in(s, i);
    let x = normals::exchange_of(net, old, r);
    add_share(s, x.off, -1);
    add_share(s, x.on, 1);
}

// What an edit or an undo makes of the journal: what one slot holds, and the counters.
#[derive(Clone, Copy)]
pub struct JournalChange {
    pub slot: usize,
    pub holds: Reversal,
    pub next: usize,
    pub count: usize,
}

// The book's core edit: r at place i, N and u with it, and the journal as the change has it.
pub fn put(s: &mut [u8], net: Network, i: usize, r: Record, change: JournalChange)
    requires { (bytes_fit s.old ≡ true) × (net ≡ (book_of s.old).network) × (i < 256) × (record_fits (book_of s.old).network r ≡ true) × (change.slot < journal_size) }
    ensures { s.new ≡ put_book s.old (with_entry (book_of s.old) i r (record { entries = set (book_of s.old).journal.entries change.slot change.holds; next = change.next; count = change.count })) }
{
    exchange(s, net, i, r);
    writing::put_record(s, Layout::PLACES_START + i * Record::LENGTH, r);
    let slot = Layout::ENTRIES_START + change.slot * Layout::REVERSAL_LENGTH;
    writing::put_reversal(s, slot, change.holds);
    writing::put_counts(s, change.next, change.count);
}
