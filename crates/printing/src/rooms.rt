// The room that a printed line or the whole sheet takes at most, in bytes; specs/Rooms says how long each is.
use network::Unit;

// A number, with a sign, with the blank after it, and without a sign; a verdict.
const FIELD: usize = text::NUMBER_ROOM + 1;

const NATURAL: usize = text::MOST_DIGITS;

const VERDICT: usize = 5;

// The first line of a sheet, the line of a station, of a baseline, of the global test.
const HEAD: usize = 6 + text::NUMBER_ROOM + 9 + text::NUMBER_ROOM + 10;

const STATION: usize = 7 * FIELD;

const BASELINE: usize = 4 * FIELD + 3 * (VERDICT + 1);

const GLOBAL: usize = 7 + 2 * FIELD + VERDICT + 1;

// `REFUSED no`, and the longest message of a line.
const REFUSED: usize = 8 + NATURAL + 1;

const MESSAGE: usize = 5 + NATURAL + 9 + NATURAL + 1;

// The longest sheet.
pub const SHEET_ROOM: usize = HEAD + Unit::STATIONS * STATION + Unit::PLACES * BASELINE + GLOBAL;

// What a line of the input prints at most: a refused opening's message, and its own.
pub const LINE_ROOM: usize = REFUSED + MESSAGE;
