//! Tests of scripts, and of the orders of the command line.
#![tactic(auto)]

#[cfg(test)]
mod early_ends;
#[cfg(test)]
mod full_bucket;
#[cfg(test)]
mod list_scripts;
#[cfg(test)]
mod long;
#[cfg(test)]
mod open_sessions;
#[cfg(test)]
mod order_lines;
#[cfg(test)]
mod orders;
#[cfg(test)]
mod random_scripts;
#[cfg(test)]
mod script_memory;
#[cfg(test)]
mod scripts;
#[cfg(test)]
mod session_scripts;
#[cfg(test)]
mod text_scripts;
#[cfg(test)]
mod token_texts;
