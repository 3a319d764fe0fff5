//! A site at hand behind a line, which is true, or live among others: the crates of tests above ask it.
#![tactic(auto)]

mod among_others;
mod served;

pub use among_others::ServedAmongOthers;
pub use served::Served;
