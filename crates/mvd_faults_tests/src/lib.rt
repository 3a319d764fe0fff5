//! Tests of a stored site: its connections, one by one and many at once, and requests at hand; faults of its streams,
//! its bytes, its records, its store and its memory; and what the example of its use prints.
#![tactic(auto)]

#[cfg(test)]
mod asked_sites;
#[cfg(test)]
mod at_hand;
#[cfg(test)]
mod clients;
#[cfg(test)]
mod damaged;
#[cfg(test)]
mod examples;
#[cfg(test)]
mod file_calls;
#[cfg(test)]
mod filling;
#[cfg(test)]
mod host_calls;
#[cfg(test)]
mod memory;
#[cfg(test)]
mod random_frames;
#[cfg(test)]
mod reopened;
#[cfg(test)]
mod replica_calls;
#[cfg(test)]
mod rights;
#[cfg(test)]
mod scale;
#[cfg(test)]
mod stops;
#[cfg(test)]
mod stream_ways;
#[cfg(test)]
mod streams;
#[cfg(test)]
mod tokens;
#[cfg(test)]
mod turns;
