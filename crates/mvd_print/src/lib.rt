//! What is printed of a reply: its text as a definition, and functions that print just that.
#![tactic(auto)]

mod fault_place;
mod lines;
mod reply_lines;
mod row_lines;
mod state_lines;
mod words;

pub use fault_place::FaultPlace;
pub use lines::{
    print_keys, print_left, print_message, print_more_left, print_none_such, print_refusal,
    print_refusal_at,
};
pub use reply_lines::{print_reply, print_short};
pub use state_lines::print_root;
