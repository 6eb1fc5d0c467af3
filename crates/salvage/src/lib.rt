// Salvage of a damaged file: a scan forward that keeps what are entries, skips anything else, and says which bytes it kept and which it skipped.
//
// `scanning` has the scan, and what it counts; `writing` the same scan, and what it writes; `salvaging` the call.
#![tactic(auto)]

mod salvaging;
mod scanning;
mod writing;

pub use salvaging::salvage;
pub use writing::list_pair;

// How many runs of bytes a salvage skips, and how many entries it keeps.
#[derive(Clone, Copy)]
pub struct SalvageCounts {
    pub skipped: usize,
    pub kept: usize,
}
