//! A host and what its clients send and are told.
ghost use Rattle.std.specs.Prelude.{◌≤◌, length};
ghost use Rattle.mvd_host.specs.Hosts.{IfClient, client_of};

use super::replica_calls::{Bytes, ROOM};
use mvd_host::{AtHand, Feed, Host, Tally};
use mvd_replica::Replica;
use sqlite::Alter;
use std::alloc::Global;

// Each call of a host stands in a helper with no clause, so that no proof carries the clauses of two.

/// Admits clients until a host has so many. It goes on where memory was refused once.
pub fn admit_all(host: &mut Host, count: usize) {
    for _ in 0..=count {
        if host.len() < count {
            let _ = host.admit(None);
        }
    }
}

/// Hands on what came of a client, where more is wanted. How many bytes were taken.
#[tactic(auto, using(crate::proofs::Wanted::wanted_if))]
pub fn feed(host: &mut Host, client: u64, bytes: &[u8]) -> usize {
    if bytes.len() > 65_536 || !host.wants_input(client) {
        return 0;
    }
    match host.feed(client, bytes) {
        Ok(()) => bytes.len(),
        Err(_) => 0,
    }
}

/// How many bytes wait to leave to a client.
fn waits(host: &Host, client: u64) -> usize
    ensures { IfClient (client_of host.now client) (λ h. result ≤ length h.waits) }
{
    match host.waiting(client) {
        Some(bytes) => bytes.len(),
        None => 0,
    }
}

/// Takes bytes that wait to leave to a client: at most so many, and as many as have room.
pub fn take(host: &mut Host, client: u64, most: usize) -> Bytes {
    let mut bytes = Bytes::of(&[]);
    let count = waits(host, client).min(most).min(ROOM);
    if let Some(waiting) = host.waiting(client) {
        bytes.put(waiting.get(..count).unwrap_or(&[]));
    }
    host.sent(client, count);
    bytes
}

/// Takes all bytes that wait to leave to a client.
pub fn drop_waiting(host: &mut Host, client: u64) {
    let count = waits(host, client);
    host.sent(client, count);
}

/// A round, where no reply of the one before is left at hand.
pub fn round_at_hand<S: Alter>(
    alloc: Global,
    host: &mut Host,
    replica: &mut Replica<S>,
    ready: &[u64],
    hand: &mut AtHand,
) {
    let mut changes = Feed::new(alloc);
    if hand.next().is_none() {
        let _ = host.round(replica, ready, hand, &mut Tally::new(), &mut changes);
    }
}

/// A round in which nothing is asked at hand.
pub fn round<S: Alter>(alloc: Global, host: &mut Host, replica: &mut Replica<S>, ready: &[u64]) {
    round_at_hand(alloc, host, replica, ready, &mut AtHand::new(alloc));
}

/// Sends these frames, one of each of the first three clients, which are answered at once. It is done again where
/// memory was refused.
fn send<S: Alter>(alloc: Global, host: &mut Host, replica: &mut Replica<S>, frames: &[&str]) {
    for (client, frame) in (0..3u64).zip(frames) {
        let bytes = Bytes::of(&[frame]);
        if feed(host, client, bytes.bytes()) == 0 {
            feed(host, client, bytes.bytes());
        }
    }
    for _ in 0..2u32 {
        round(alloc, host, replica, &[0, 1, 2]);
    }
}

/// What three new clients are told, who send these frames, one each in a round: one client's replies behind those of
/// another.
pub fn told_by_three<S: Alter>(alloc: Global, replica: &mut Replica<S>, frames: &[&str]) -> Bytes {
    let mut output = Bytes::of(&[]);
    let mut host = Host::new(alloc);
    admit_all(&mut host, 3);
    for each in frames.chunks(3) {
        send(alloc, &mut host, replica, each);
    }
    for client in 0..3u64 {
        output.put(take(&mut host, client, ROOM).bytes());
    }
    drop(host);
    output
}
