// Runs books against a plain ledger kept in this program: a list of standing edits, from which the records are rebuilt after every call. N and u are
// compared with those worked out from scratch by `book::is_sound`, which also judges the journal. Prints how often each number was answered. Calls in rows of words go through `replay`.
#![tactic(auto)]

mod ledger;
mod rows;
mod samples;

ghost use Rattle.std.specs.Prelude.{◌≡◌, true};
ghost use Rattle.book.specs.Book.{sound};

use book::{Book, Call, Change, Refusal};
use ledger::Ledger;
use network::Record;
use samples::Kind;

// How often each number was answered, and how often book and ledger differed.
#[derive(Drop)]
struct Tally {
    answers: [u64; 10],
    differences: u64,
}

impl Tally {
    fn count(&mut self, answer: u64) {
        if let Some(n) = self.answers.get_mut(answer as usize) {
            *n = n.saturating_add(1);
        }
    }

    // One difference more, unless book and ledger agree.
    fn judge(&mut self, agrees: bool) {
        if !agrees {
            self.differences = self.differences.saturating_add(1);
        }
    }
}

// The call of a kind.
fn call_of(kind: Kind, place: i64, entry: Record) -> Call {
    match kind {
        Kind::Enter => Call::Edit(place, Change::Enter(entry)),
        Kind::Strike => Call::Edit(place, Change::Strike),
        Kind::Undo => Call::Undo,
    }
}

// The number that document 01's table has for an answer, 0 where the call is not refused.
fn number(answer: Result<(), Refusal>) -> u64 {
    match answer {
        Ok(()) => 0,
        Err(refusal) => u64::from(refusal),
    }
}

// A run: the book and the ledger side by side, and the generator.
#[derive(Drop)]
struct Side {
    book: Book,
    ledger: Ledger,
    random: u64,
}

impl Side {
    // The book is sound, and its records are those of the ledger.
    fn agrees(&self) -> bool {
        ledger::same_places(self.book.places, self.ledger.places()) && book::is_sound(self.book)
    }
}

// One random call on both.
fn step(side: &mut Side, found: &mut Tally)
    requires { sound side.old.book ≡ true }
    ensures { sound side.new.book ≡ true }
{
    let s = samples::next(side.random);
    let t = samples::next(s);
    side.random = samples::next(t);
    let kind = samples::kind_of(s);
    let place = samples::place(t);
    let entry = samples::entry(side.random);
    let answer = side.book.apply(call_of(kind, place, entry));
    if answer.is_ok() {
        side.ledger.follow(kind, place, entry);
    }
    found.count(number(answer));
    found.judge(side.agrees());
}

// A run of 400 random calls from an opened book.
fn run(found: &mut Tally, seed: u64) {
    let Ok(book) = Book::open(&samples::list()) else {
        found.judge(false);
        return;
    };
    let mut side = Side {
        book,
        ledger: Ledger::new(),
        random: seed,
    };
    found.judge(side.agrees());
    for _ in 0..400 {
        step(&mut side, found);
    }
}

fn print_line(name: &[u8], n: u64) {
    io::write_all(1, name);
    io::print_decimal(1, n);
    io::write_all(1, b"\n");
}

// 250 runs.
fn random_runs() -> Tally {
    let mut found = Tally {
        answers: [0; 10],
        differences: 0,
    };
    for seed in 1..=250 {
        run(&mut found, seed);
    }
    found
}

fn print_tally(tally: &Tally) {
    io::write_all(1, b"100000 random calls, by their answers\n");
    for (answer, n) in tally.answers.iter().enumerate() {
        io::print_decimal(1, answer as u64);
        print_line(b": ", *n);
    }
    print_line(b"differences: ", tally.differences);
}

// n calls of one kind, at the places n to 1: how many were accepted.
fn series(book: &mut Book, kind: Kind, n: u8) -> u64
    requires { sound book.old ≡ true }
    ensures { sound book.new ≡ true }
{
    let mut accepted: u64 = 0;
    for place in (1..=n).rev() {
        let c = call_of(kind, i64::from(place), samples::level());
        if book.apply(c).is_ok() {
            accepted = accepted.saturating_add(1);
        }
    }
    accepted
}

fn pushed_out() {
    let Ok(mut book) = Book::open(&samples::list()) else {
        return;
    };
    let accepted = series(&mut book, Kind::Enter, 65);
    print_line(b"65 enters, accepted: ", accepted);
    let undone = series(&mut book, Kind::Undo, 64);
    print_line(b"64 undos, accepted: ", undone);
    print_line(b"records standing: ", ledger::filled(book.places));
    print_line(b"one more undo: ", number(book.apply(Call::Undo)));
}

// A record entered over one that equals it is an edit too: two undos take both back, and a third has nothing left.
fn entered_twice() {
    let Ok(mut book) = Book::open(&samples::list()) else {
        return;
    };
    series(&mut book, Kind::Enter, 1);
    let accepted = series(&mut book, Kind::Enter, 1);
    print_line(b"an equal record entered over it, accepted: ", accepted);
    let undone = series(&mut book, Kind::Undo, 3);
    print_line(b"3 undos, accepted: ", undone);
}

fn main() {
    pushed_out();
    entered_twice();
    rows::run();
    print_tally(&random_runs());
}
