//! A server of many clients at once, in frames and over HTTP.
#![tactic(auto)]

mod asks;
mod at_once;
mod batch;
mod census;
mod changes;
mod client;
mod clientele;
mod copying;
mod crowd;
mod door;
mod endings;
mod feeding;
mod gate;
mod histogram;
pub mod laws;
mod listings;
mod look;
mod metrics;
mod own_session;
mod parked;
mod passing;
mod peer_counts;
mod peer_link;
mod peer_list;
mod peer_news;
mod peer_steps;
mod peer_turn;
mod peering;
mod responding;
mod rotation;
mod server;
mod sockets;
mod talks;
mod telling;
mod terms;
mod timers;
mod timing;
mod tokens;

pub use server::serve_run;
pub use sockets::{Direct, Sockets};
pub use terms::Terms;
pub use tokens::{Tokens, TokensFault, read_tokens, tokens_of};
