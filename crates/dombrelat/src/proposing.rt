// The C call for a proposal.
ghost use Rattle.dombrelat.specs.Proposal.{Proposes};

use super::NO_BOOK;

// Proposes a pair that the check accepts.
#[unsafe(no_mangle)]
pub extern "C" fn dombrelat_propose(book: &[u8], x: &mut [u8], m: &mut [u8]) -> i64
    ensures { Proposes book.now result x.old m.old x.new m.new }
{
    if !layout::holds_book(book) {
        return NO_BOOK;
    }
    lent_checks::proposal_word(lent_checks::propose_lent(book, x, m))
}
