//! What the commands of the program do: with standard input and output, and with a stored site.
#![tactic(auto)]

mod awaited;
mod closing;
mod commands;
pub mod laws;
mod looping;
mod opening;
mod outlet;
mod paths;
mod serve_command;
mod setups;
mod tokens;
mod typed_lines;
mod without_files;

pub use closing::{Left, LeftOf, Ran};
pub use commands::run;
pub use looping::loop_run;
pub use mvd_client::Sockets;
pub use mvd_hint::Stop;
pub use mvd_server::Direct;
pub use opening::refused_in;
