//! A stored site and its sessions, for a program that names one crate.
//!
//! `Replica` is a site with its records: `open_file` opens one from a file, and its calls write and read. `sync` runs a
//! session between two. What each promises is told where it stands; this crate only passes them on. The crate
//! `mvd_example` is a whole program's work with them.
#![tactic(auto)]

pub use mvd_docs::{Document, Field, Term, ViewName};
pub use mvd_dots::{Context, Dot, Refusal};
pub use mvd_keys::{Key, KeyState, Place};
pub use mvd_records::{is_foreign, owner_in};
pub use mvd_replica::{Ended, FRAMES_MAX, FileFault, Replica, ViewRows, open_file, serve};
pub use mvd_rows::Defs;
pub use mvd_site::Config;
pub use mvd_sync::{Left, Report, Side, SyncFault, sync};
pub use mvd_wire::{Items, Prefix, RowValue};
pub use sqlite::{Alter, Connection, MemStore, Unknown};
