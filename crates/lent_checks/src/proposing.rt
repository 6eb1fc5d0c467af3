// A proposal for a book, to lent bytes.
ghost use Rattle.std.specs.Prelude.{◌≡◌, true, ◌≤◌, Ok};
ghost use Rattle.layout.specs.Bytes.{book_of, bytes_fit};
ghost use Rattle.lent_checks.specs.Offers.{Offers, OffersLent, lent_lengths, proposal_word};

use acceptance::Refusal;
use engine::Proposal;
use network::Unit;
use normals::Normals;

// x and m hold n and n·n whole words.
fn lengths_fit(n: usize, x: &[u8], m: &[u8]) -> bool
    requires { n ≤ 48 }
    ensures { result ≡ lent_lengths n x.now m.now }
{
    let entries = n * n;
    (x.len() / 8 == n) & (m.len() / 8 == entries) & (x.len() % 8 == 0) & (m.len() % 8 == 0)
}

// A proposal for a book of n unknowns and lengths that fit it. It is worked out beside the lent bytes, which are written only where it is accepted.
fn propose_words(book: &[u8], n: usize, x: &mut [u8], m: &mut [u8]) -> Proposal
    requires { (bytes_fit book.now ≡ true) × (n ≤ 48) × (lent_lengths n x.old m.old ≡ true) }
    ensures { Offers (book_of book.now) (proposal_word (Ok result)) x.old m.old x.new m.new }
{
    let i = x.len() / 8;
    let j = m.len() / 8;
    let mut xs = [0; Normals::ROW];
    let mut ms = [0; Normals::ENTRIES];
    if !engine::work_out(book, n, &mut xs, &mut ms) {
        return Proposal::Nothing;
    }
    words::write_words(x, 0, &xs[0..i]);
    words::write_words(m, 0, &ms[0..j]);
    Proposal::Made
}

// A proposal, or a refusal where the lengths do not fit.
pub fn propose_lent(book: &[u8], x: &mut [u8], m: &mut [u8]) -> Result<Proposal, Refusal>
    requires { bytes_fit book.now ≡ true }
    ensures { OffersLent (book_of book.now) (proposal_word result) x.old m.old x.new m.new }
{
    let net = layout::network_in(book);
    let stations = net.stations;
    let n = network::number_of(stations, Unit::COMPONENTS);
    if !lengths_fit(n, x, m) {
        return Err(Refusal::Lengths);
    }
    Ok(propose_words(book, n, x, m))
}

// The answer as a C call gives it.
pub fn proposal_word(answer: Result<Proposal, Refusal>) -> i64
    ensures { result ≡ proposal_word answer }
{
    match answer {
        Ok(Proposal::Made) => 0,
        Ok(Proposal::Nothing) => -1,
        Err(refusal) => u64::from(refusal) as i64,
    }
}
