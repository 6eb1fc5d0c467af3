// Accepting a solution: document 01's tests 1 to 7 of a proposed pair (x, M) against the normal equations, in their order.
#![tactic(auto)]

mod inverse;
mod judge;
mod limits;
mod products;
mod refinement;
mod sizes;

pub use judge::{accept, number, unknown};

// Why a check refuses: the test that fails. specs/Judge gives document 01's number and value of each case.
#[derive(Clone, Copy)]
pub enum Refusal {
    // Test 1: the lengths of x and M, or the sheet's room.
    Lengths,
    // Test 2: the first unknown without a chain, by its number from 1.
    Untied(u64),
    // Test 3: a correction.
    Correction,
    // Test 4: an entry of M.
    Inverse,
    // Test 5: a row of S.I − MN.
    Defect,
    // Test 6: an entry of r.
    Residual,
    // Test 7: an entry of Mr.
    Refinement,
    // Refusal 9, where no test fails: an entry of N or u, or T, beyond ±2^62.
    TooLarge,
}
