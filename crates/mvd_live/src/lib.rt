//! Sessions of sides to which others write, as laws over the runs of their machine.
#![tactic(auto)]

pub mod laws;
