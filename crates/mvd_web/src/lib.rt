//! One HTTP connection without IO: bytes come in, one request at a time is taken, its response is queued, and bytes
//! leave.
#![tactic(auto)]

mod desk;
mod response;
mod rights;
mod spare;
mod taken;
mod web_connection;
mod web_ending;

pub use rights::may_ask;
pub use taken::{Asked, Entry};
pub use web_connection::WebConnection;
