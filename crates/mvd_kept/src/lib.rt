//! What one site keeps, and its answers to requests from that, from the writes known; all work is counted. Nothing
//! here can begin a count.
#![tactic(auto)]

mod config;
mod held;
mod installing;
mod kept;
pub mod laws;
mod listing;
mod opening;
mod prepared;
mod questions;
mod work;
mod writes;

pub use config::Config;
pub use kept::Kept;
pub use opening::may_be_held;
pub use prepared::{Change, Prepared};
pub use work::{HeldLook, Work};
