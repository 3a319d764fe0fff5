//! Indexes and views, kept as ordered rows while the states of keys change.
#![tactic(auto)]

mod among;
mod answering;
mod building;
mod changes;
mod conflicts;
mod definitions;
mod index;
pub mod laws;
mod loops;
mod marks;
mod meters;
mod moves;
mod ordered_map;
mod starts;
mod tallies;
mod views;

/// How many places, or rows, a page has at most.
pub(crate) const PAGE: usize = 1000;

pub use changes::Rows;
pub use definitions::{Defs, ViewDef};
pub use meters::Meter;
pub use views::ShownRow;
