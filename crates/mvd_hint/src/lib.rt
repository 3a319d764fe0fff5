//! Why a command was stopped, and what there is to do about it; and whether its file is still what was opened.
#![tactic(auto)]

mod harm;
mod hint;
mod watch;

pub use harm::Harm;
pub use hint::{Hint, Older, Stop, lacks_descriptors};
pub use watch::{Lengths, Watch};
