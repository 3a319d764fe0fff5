//! Stored states, as tables of a database.
#![tactic(auto)]

pub mod foreign;
mod jobs;
mod loading;
mod moving;
mod open;
pub mod owner;
mod pairs;
mod records;
mod statements;
pub mod storing;

pub use foreign::is_foreign;
pub use owner::owner_in;
pub use records::Records;
pub use storing::Save;
