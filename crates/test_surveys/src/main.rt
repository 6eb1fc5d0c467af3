// The surveys of the source documents through the book, the engine and the check, beside the figures of an exact solver in whole numbers (tests/reference/solve.py) and those that
// document 002 prints. Each survey's file says its unit and its weights; tests/reference/documents.py has the documents' tables and makes the numbers from them.
#![tactic(auto)]

mod baselines_002;
mod baselines_002_one_held;
mod baselines_003;
mod levelling;
mod lines;
mod positions_003;
mod printing;
mod records;
mod solving;

use book::Refusal;

fn surveys() -> Result<(), Refusal> {
    levelling::run()?;
    baselines_003::run()?;
    baselines_002::run()?;
    baselines_002_one_held::run()?;
    positions_003::run()
}

// An opening or an edit that is refused ends the output, by its number.
fn main() {
    if let Err(refusal) = surveys() {
        printing::text("refused ");
        io::print_decimal(1, u64::from(refusal));
        printing::text("\n");
    }
}
