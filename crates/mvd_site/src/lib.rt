//! One site: its answers to requests, from the writes known.
#![tactic(auto)]

mod sites;
mod uncounted;

pub use mvd_kept::{Change, Config, Prepared, may_be_held};
pub use sites::Site;
pub use uncounted::no_work;
