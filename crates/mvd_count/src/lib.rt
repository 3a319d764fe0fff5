//! Counts of work. What is counted adds to a count that it is handed: it can begin none, nor copy one or put it back.
#![tactic(auto)]

mod counts;

pub use counts::Count;
