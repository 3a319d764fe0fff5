//! What a command does at its end of a connection to a server: a session, or a shell; and a session of two servers.
#![tactic(auto)]

mod asked_server;
mod between;
mod both_ways;
mod dial;
mod gone;
mod link;
mod meeting;
mod peer_commands;
mod progress;
mod pushing;
mod socket;
mod stored_side;

pub use between::{MeetingTerms, meet_run};
pub use both_ways::{BothWays, Nonblocking};
pub use dial::{Dial, DialFault, Sockets};
pub use gone::Gone;
pub use link::Link;
pub use meeting::{Root, meet_over, root_over, tell_meeting};
pub use peer_commands::{remote_shell_run, sync_run, sync_told, tell_report};
pub use progress::Watched;
pub use socket::Socket;
