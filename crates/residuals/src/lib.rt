// What an accepted pair leaves of each observation: residuals, their variances, and the local and global tests.
#![tactic(auto)]

mod components;
mod observations;
mod variances;
mod verdicts;

pub use components::{adjusted, adjusted_station, corrections_of, residuals_of};
pub use observations::verdicts_of;
pub use variances::Covariances;
pub use verdicts::global_verdict;

// A verdict of the local test, or of the global one.
#[derive(Clone, Copy)]
pub enum Verdict {
    Pass,
    Fail,
    Loose,
    Low,
    High,
    NoVerdict,
}

// The 95% limits of the global test at one number of degrees of freedom, in thousandths.
#[derive(Clone, Copy)]
pub struct Limits {
    pub lower: i64,
    pub upper: i64,
}

// An observed component of a record, as the local test takes it: its residual, its entry of the adjugate and the determinant of the weights, the components of the station list at
// the to and the from end, and 0 for `joins` where there is no from end.
#[derive(Clone, Copy)]
pub struct Observation {
    pub residual: i64,
    pub adjugate: i64,
    pub determinant: i64,
    pub to: usize,
    pub from: usize,
    pub joins: i64,
}
