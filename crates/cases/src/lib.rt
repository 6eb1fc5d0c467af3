// Document 01's cases that are proved, run through the calls that ship: a book opened on the stations of the night print, the case's edits, and a check with a sheet.
#![tactic(auto)]

ghost use Rattle.std.specs.Prelude.{◌≡◌, true, ◌≤◌, ◌<◌, length};
ghost use Rattle.network.specs.Stations.{network_of};
ghost use Rattle.book.specs.Book.{opened_book, sound};
ghost use Rattle.cases.specs.Table.{station_list, level_by, baseline_by, table};
ghost use Rattle.cases.specs.Cases.{CallsMade, CaseRan, case_at, enough, rows_of};
ghost use Rattle.cases.specs.Script.{call_at, rows_named};

use acceptance::Refusal;
use book::{Book, Call, Change};
use network::Record;

// The stations: kind, E, N, U.
const STATION_LIST: [i64; 8] = [1, 0, 0, 100000, 3, 0, 0, 101000];

// M of two records of weight 100, and of three: S over 200 and over 300, rounded.
const M2: i64 = 5368709;

const M3: i64 = 3579139;

// What a case runs: its calls, by their numbers in `call_at`, and X and M of its check.
#[derive(Clone, Copy)]
struct Run {
    calls: &'static [usize],
    x: i64,
    m: i64,
}

const RUNS: [Run; 14] = [
    Run {
        calls: &[0, 1],
        x: 50,
        m: M2,
    },
    Run {
        calls: &[0, 1],
        x: 51,
        m: M2,
    },
    Run {
        calls: &[0, 1],
        x: 50,
        m: 0,
    },
    Run {
        calls: &[],
        x: 50,
        m: M2,
    },
    Run {
        calls: &[0, 1, 2],
        x: 50,
        m: M2,
    },
    Run {
        calls: &[0, 1, 2],
        x: 100,
        m: M2,
    },
    Run {
        calls: &[0, 1, 2, 3],
        x: 50,
        m: M2,
    },
    Run {
        calls: &[3],
        x: 50,
        m: M2,
    },
    Run {
        calls: &[0, 4],
        x: 138,
        m: M2,
    },
    Run {
        calls: &[0, 5],
        x: 139,
        m: M2,
    },
    Run {
        calls: &[0, 1, 6],
        x: 33367,
        m: M3,
    },
    Run {
        calls: &[0, 1, 7],
        x: 50,
        m: M2,
    },
    Run {
        calls: &[0, 1, 8],
        x: 50,
        m: M2,
    },
    Run {
        calls: &[0, 1, 9],
        x: 33,
        m: M3,
    },
];

// A height difference from station 1 to station 2 of weight 100.
fn level(up: i64) -> Record
    ensures { result ≡ level_by up }
{
    network::height_of(1, 2, up, 100)
}

// A baseline from station 1 to station 2 of weights 100, with `en` in E and N.
fn baseline_with(en: i64) -> Record
    ensures { result ≡ baseline_by en }
{
    network::baseline_of(1, 2, [0, 0, 1000], [100, en, 0, 100, 0, 100], [0, 0])
}

fn enter(place: i64, entry: Record) -> Call
    ensures { result ≡ Call.Edit place (Change.Enter entry) }
{
    Call::Edit(place, Change::Enter(entry))
}

// The calls that the cases make.
fn call_at(c: usize) -> Call
    ensures { result ≡ call_at c }
{
    match c {
        0 => enter(1, level(1000)),
        1 => enter(2, level(1100)),
        2 => enter(2, level(1200)),
        3 => Call::Undo,
        4 => enter(2, level(1276)),
        5 => enter(2, level(1278)),
        6 => enter(3, level(101000)),
        7 => enter(3, level(101001)),
        8 => enter(3, baseline_with(100)),
        _ => enter(3, baseline_with(99)),
    }
}

// The book opened on the stations.
fn opened() -> Book
    ensures { (result ≡ opened_book (network_of station_list)) × (sound result ≡ true) }
{
    Book::open(&STATION_LIST).unwrap()
}

// The calls of these numbers in turn; each is answered in its turn.
fn make_calls(book: &mut Book, numbers: &[usize], answers: &mut [i64])
    requires { (sound book.old ≡ true) × (length numbers.now ≤ length answers.old) }
    ensures { CallsMade book.old (rows_named numbers.now) answers.old answers.new book.new }
{
    for i in 0..numbers.len() {
        let answer = book.apply(call_at(numbers[i]));
        answers[i] = book::call_word(answer);
    }
}

// What case k of the table runs.
fn run_at(k: usize) -> Run
    requires { k < length table }
    ensures rows { rows_named result.calls.now ≡ rows_of (case_at k) }
    ensures x { result.x ≡ (case_at k).x }
    ensures m { result.m ≡ (case_at k).m }
{
    RUNS[k]
}

// Case k of the table, from 0: its calls are answered at the front of `answers`, and its check writes the front of `sheet`.
pub fn run_case(k: usize, answers: &mut [i64], sheet: &mut [i64]) -> Result<(), Refusal>
    requires { (k < length table) × (4 ≤ length answers.old) × (enough ≤ length sheet.old) }
    ensures { CaseRan (case_at k) answers.old answers.new sheet.old sheet.new result }
{
    let run = run_at(k);
    let mut book = opened();
    make_calls(&mut book, run.calls, answers);
    checks::check_sheet(book, &[run.x], &[run.m], sheet)
}
