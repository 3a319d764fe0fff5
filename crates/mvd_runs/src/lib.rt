//! What a stored site was asked, in one run of a program and over many, as events of the store.
#![tactic(auto)]

pub mod laws;
