//! Lines that ask a site: what each line asks, and what is printed of the replies.
#![tactic(auto)]

mod line_reader;
mod losses;
mod page_fits;
mod pages;
mod shell;
mod talk;
mod text_requests;
mod written;

pub use losses::{Losses, NoLosses};
pub use page_fits::fits;
pub use shell::shell_run;
pub use talk::{answer, begin_line, say, settle};
pub use written::write_lines;
