//! A site with its records, and the answering of one connection.
#![tactic(auto)]

mod adding;
mod batch;
mod behind;
pub mod calls;
mod connecting;
pub mod file;
mod groups;
pub mod laws;
mod pushes;
pub mod replica;
mod restoring;
pub mod serving;
mod side;
mod turns;
mod waiting;

pub use adding::key_asked;
pub use calls::ViewRows;
pub use file::{FileFault, open_file};
pub use replica::Replica;
pub use serving::{Ended, FRAMES_MAX, serve};
