// The C calls that edit a book. docs/REFUSALS.md has each number in words.
ghost use Rattle.std.specs.Prelude.{◌≡◌, [], ◌∷◌};
ghost use Rattle.network.specs.Records.{baseline_of, height_of, position_of};
ghost use Rattle.dombrelat.specs.Calls.{edit_call};

use super::NO_BOOK;
use book::{Call, Change, call_word};

// The book that the bytes hold, edited: 25 before all others.
fn edit_bytes(book: &mut [u8], call: Call) -> i64
    ensures { (result ≡ (edit_call book.old call).answer) × (book.new ≡ (edit_call book.old call).bytes) }
{
    if !layout::holds_book(book) {
        return NO_BOOK;
    }
    call_word(lent_edits::apply(book, call))
}

// Enters a baseline at a place, be it empty or filled; hf and ht are the antenna heights at from and at to.
#[unsafe(no_mangle)]
pub extern "C" fn dombrelat_enter_baseline(
    book: &mut [u8],
    place: i64,
    from: i64,
    to: i64,
    east: i64,
    north: i64,
    up: i64,
    ee: i64,
    en: i64,
    eu: i64,
    nn: i64,
    nu: i64,
    uu: i64,
    hf: i64,
    ht: i64,
) -> i64
    ensures value { result ≡ (edit_call book.old (Call.Edit place (Change.Enter (baseline_of from to (east ∷ north ∷ up ∷ []) (ee ∷ en ∷ eu ∷ nn ∷ nu ∷ uu ∷ []) (hf ∷ ht ∷ []))))).answer }
    ensures book_after { book.new ≡ (edit_call book.old (Call.Edit place (Change.Enter (baseline_of from to (east ∷ north ∷ up ∷ []) (ee ∷ en ∷ eu ∷ nn ∷ nu ∷ uu ∷ []) (hf ∷ ht ∷ []))))).bytes }
{
    let r = network::baseline_of(
        from,
        to,
        [east, north, up],
        [ee, en, eu, nn, nu, uu],
        [hf, ht],
    );
    edit_bytes(book, Call::Edit(place, Change::Enter(r)))
}

// Enters a height difference at a place, be it empty or filled.
#[unsafe(no_mangle)]
pub extern "C" fn dombrelat_enter_height(
    book: &mut [u8],
    place: i64,
    from: i64,
    to: i64,
    up: i64,
    weight: i64,
) -> i64
    ensures value { result ≡ (edit_call book.old (Call.Edit place (Change.Enter (height_of from to up weight)))).answer }
    ensures book_after { book.new ≡ (edit_call book.old (Call.Edit place (Change.Enter (height_of from to up weight)))).bytes }
{
    let r = network::height_of(from, to, up, weight);
    edit_bytes(book, Call::Edit(place, Change::Enter(r)))
}

// Enters a position at a place, be it empty or filled.
#[unsafe(no_mangle)]
pub extern "C" fn dombrelat_enter_position(
    book: &mut [u8],
    place: i64,
    station: i64,
    east: i64,
    north: i64,
    up: i64,
    ee: i64,
    en: i64,
    eu: i64,
    nn: i64,
    nu: i64,
    uu: i64,
) -> i64
    ensures value { result ≡ (edit_call book.old (Call.Edit place (Change.Enter (position_of station (east ∷ north ∷ up ∷ []) (ee ∷ en ∷ eu ∷ nn ∷ nu ∷ uu ∷ []))))).answer }
    ensures book_after { book.new ≡ (edit_call book.old (Call.Edit place (Change.Enter (position_of station (east ∷ north ∷ up ∷ []) (ee ∷ en ∷ eu ∷ nn ∷ nu ∷ uu ∷ []))))).bytes }
{
    let r = network::position_of(station, [east, north, up], [ee, en, eu, nn, nu, uu]);
    edit_bytes(book, Call::Edit(place, Change::Enter(r)))
}

// Empties a filled place.
#[unsafe(no_mangle)]
pub extern "C" fn dombrelat_strike(book: &mut [u8], place: i64) -> i64
    ensures value { result ≡ (edit_call book.old (Call.Edit place Change.Strike)).answer }
    ensures book_after { book.new ≡ (edit_call book.old (Call.Edit place Change.Strike)).bytes }
{
    edit_bytes(book, Call::Edit(place, Change::Strike))
}

// Takes the latest edit back.
#[unsafe(no_mangle)]
pub extern "C" fn dombrelat_undo(book: &mut [u8]) -> i64
    ensures value { result ≡ (edit_call book.old Call.Undo).answer }
    ensures book_after { book.new ≡ (edit_call book.old Call.Undo).bytes }
{
    edit_bytes(book, Call::Undo)
}
