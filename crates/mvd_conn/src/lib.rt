//! A connection without IO: bytes come in, whole frames are taken one by one, replies are queued, and bytes leave.
#![tactic(auto)]

mod connection;
mod guard;
pub mod laws;
mod passes;
mod right;
mod room;
pub mod scan;
pub mod source;

pub use connection::Connection;
pub use guard::Guard;
pub use passes::{Pass, Passes};
pub use right::Right;
pub use scan::{Front, front_of};
pub use source::Source;
