//! Tests of one site: the bytes of requests, replies and states, calls that a script does not make, and each row of the
//! interface over HTTP. And of its sessions: with sites, with peers that lie, and over connections in memory.
#![tactic(auto)]

#[cfg(test)]
mod asked_over_http;
#[cfg(test)]
mod beside_writers;
#[cfg(test)]
mod by_mail;
#[cfg(test)]
mod key_requests;
#[cfg(test)]
mod liars;
#[cfg(test)]
mod list_requests;
#[cfg(test)]
mod many_keys;
#[cfg(test)]
mod many_requests;
#[cfg(test)]
mod mistaken;
#[cfg(test)]
mod page_requests;
#[cfg(test)]
mod peers;
#[cfg(test)]
mod refused_growth;
#[cfg(test)]
mod remotes;
#[cfg(test)]
mod reply_frames;
#[cfg(test)]
mod request_frames;
#[cfg(test)]
mod site_calls;
#[cfg(test)]
mod state_frames;
#[cfg(test)]
mod state_limits;
#[cfg(test)]
mod state_requests;
#[cfg(test)]
mod trials;
#[cfg(test)]
mod two_sites;
