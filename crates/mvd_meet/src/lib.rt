//! Sessions that wait for nobody: a side that is asked at hand and one by mail, what goes on between them, and when
//! they meet.
#![tactic(auto)]

pub mod asked;
pub mod caller;
pub(crate) mod inbox;
pub mod loan;
pub mod near;
pub mod pace;
pub(crate) mod post;
pub mod schedule;
pub mod stepping;
pub(crate) mod turns;

pub use caller::Caller;
pub use loan::Loan;
pub use near::Near;
pub use pace::{Met, Pace, is_among};
pub use schedule::{Author, Schedule};
pub use stepping::{Course, Meeting};
