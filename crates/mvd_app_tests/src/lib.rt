//! Tests of the commands: inputs, a connection within one process, links, sessions with a site at hand and of two
//! servers, shells, and hints.
#![tactic(auto)]

#[cfg(test)]
mod at_hand;
#[cfg(test)]
mod hints;
#[cfg(test)]
mod inputs;
#[cfg(test)]
mod links;
#[cfg(test)]
mod met_servers;
#[cfg(test)]
mod shells;
