//! Many connections at once, from one thread and without IO: the frames that are held and the requests at hand are
//! answered together, and each reply is queued on its own connection, or left at hand.
#![tactic(auto)]

mod arranging;
mod at_hand;
mod feed;
mod foreseeing;
mod front;
mod host;
pub mod laws;
mod noting;
mod queueing;
mod round;
mod taking;
mod tally;
mod weighing;

pub use at_hand::{AtHand, FIRST_AT_HAND};
pub use feed::{Changed, Feed};
pub use host::{CLIENTS_MAX, Host};
pub use tally::{KINDS, Tally};
