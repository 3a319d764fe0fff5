//! Sessions, by which two sides come to hold the same key states.
#![tactic(auto)]

pub mod asked;
mod asking;
mod cursor;
mod exchange;
mod front;
mod hearing;
mod levels;
pub mod machine;
mod made;
mod meetings;
mod old;
pub mod report;
pub mod session;
mod stage;
pub mod telling;
mod turn;
mod walking;
mod weights;

pub use asked::Step;
pub use machine::Machine;
pub use report::{Left, Report, Side, SyncFault};
pub use session::{MOST_QUESTIONS, sync, sync_within};
