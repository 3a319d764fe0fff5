//! Several sites in one process, that write, send each other messages and hold sessions.
#![tactic(auto)]

pub mod acts;
pub mod laws;
pub mod open_world;
pub mod runs;
mod sessions;
pub mod steps;
mod windows;
pub mod worlds;

pub use acts::{Act, Came};
pub use open_world::{OpenWorld, run_acts};
pub use runs::run_world;
pub use steps::{Outcome, Step};
pub use worlds::World;
