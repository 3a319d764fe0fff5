//! The store as a state machine over sets of writes, and what holds of each of its behaviours.
#![tactic(auto)]

pub mod laws;
