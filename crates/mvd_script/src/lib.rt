//! Scripts over several sites: what each line does, and what it prints.
#![tactic(auto)]

mod head;
mod member;
mod play;
mod printing;
mod script;

pub use script::sim;
