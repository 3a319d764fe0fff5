//! What a session asks of a side: the states that it holds, a window of questions at a time.
#![tactic(auto)]

mod endpoint;
pub mod holding;
pub mod laws;
pub mod peer;
pub mod reads;
mod site_side;
pub mod window;
pub mod windows;

pub use endpoint::Endpoint;
pub use peer::Peer;
pub use reads::read;
pub use window::{Page, Told, Window};
pub use windows::{is_over, room_for};
