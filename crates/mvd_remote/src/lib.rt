//! A site at the other end of a connection, as a side of a session and as what answers requests.
#![tactic(auto)]

mod far_end;
pub mod line;
pub mod remote;

pub use line::{Duplex, Line};
pub use remote::{Answer, Frames, Remote, collect, kept};
