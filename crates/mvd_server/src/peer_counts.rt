//! What is counted of the sessions with a peer.
ghost use Rattle.std.specs.Prelude.{◌≡◌, length};
ghost use Rattle.mvd_server.specs.PeerCounted.{ended_with, one_more};

use crate::metrics::print_head;
use mvd_dots::Refusal;
use mvd_sync::Report;
use std::fmt::Write as Print;
use std::net::SocketAddr;

/// The sessions with a peer since the server started, by how they ended, the keys that they exchanged, and when the
/// last one ended that had no fault, in milliseconds.
#[derive(Clone, Copy)]
pub(crate) struct PeerCounts {
    address: SocketAddr,
    done: u64,
    left: u64,
    failed: u64,
    keys: u64,
    last: u64,
}

impl PeerCounts {
    /// Before the first session, at the server's start.
    pub fn new(address: SocketAddr) -> PeerCounts
        ensures { result ≡ record { address = address; done = 0; left = 0; failed = 0; keys = 0; last = 0 } }
    {
        PeerCounts {
            address,
            done: 0,
            left: 0,
            failed: 0,
            keys: 0,
            last: 0,
        }
    }

    /// Notes a session that exchanged so many keys at this time, and whether it left some.
    pub fn end(&mut self, keys: u64, has_left: bool, now: u64)
        ensures { self.new ≡ ended_with keys has_left now self.old }
    {
        self.keys = self.keys.saturating_add(keys);
        self.last = now;
        if has_left {
            self.left = self.left.saturating_add(1);
        } else {
            self.done = self.done.saturating_add(1);
        }
    }

    /// Notes a session that failed.
    pub fn fail(&mut self)
        ensures { self.new ≡ record self.old { failed = one_more self.old.failed } }
    {
        self.failed = self.failed.saturating_add(1);
    }

    fn print_ended(&self, outcome: &str, count: u64, out: &mut String) -> Result<(), Refusal> {
        let address = self.address;
        writeln!(
            out,
            "mvd_peer_sessions_total{{peer=\"{address}\",outcome=\"{outcome}\"}} {count}"
        )?;
        Ok(())
    }
}

/// Counts a session with the peer at this place that is done.
pub(crate) fn count_done(peers: &mut Vec<PeerCounts>, place: usize, report: &Report, now: u64)
    ensures { length peers.new.items ≡ length peers.old.items }
{
    if let Some(counts) = peers.get_mut(place) {
        counts.end(report.keys, report.refused > 0, now);
    }
}

/// Counts one that failed.
pub(crate) fn count_failed(peers: &mut Vec<PeerCounts>, place: usize)
    ensures { length peers.new.items ≡ length peers.old.items }
{
    if let Some(counts) = peers.get_mut(place) {
        counts.fail();
    }
}

/// Prints what is counted of each peer, and how long ago its last session ended that had no fault, or else the server
/// started.
pub(crate) fn print_peers(peers: &[PeerCounts], now: u64, out: &mut String) -> Result<(), Refusal> {
    if peers.is_empty() {
        return Ok(());
    }
    print_sessions(peers, out)?;
    print_keys(peers, out)?;
    print_since(peers, now, out)
}

fn print_sessions(peers: &[PeerCounts], out: &mut String) -> Result<(), Refusal> {
    print_head(
        "mvd_peer_sessions_total",
        "counter",
        "Sessions with each peer, by how they ended.",
        out,
    )?;
    for peer in peers {
        peer.print_ended("done", peer.done, out)?;
        peer.print_ended("left", peer.left, out)?;
        peer.print_ended("failed", peer.failed, out)?;
    }
    Ok(())
}

fn print_keys(peers: &[PeerCounts], out: &mut String) -> Result<(), Refusal> {
    print_head(
        "mvd_peer_keys_total",
        "counter",
        "Keys that crossed in the sessions with each peer.",
        out,
    )?;
    for peer in peers {
        let address = peer.address;
        writeln!(
            out,
            "mvd_peer_keys_total{{peer=\"{address}\"}} {}",
            peer.keys
        )?;
    }
    Ok(())
}

fn print_since(peers: &[PeerCounts], now: u64, out: &mut String) -> Result<(), Refusal> {
    print_head(
        "mvd_peer_seconds_since",
        "gauge",
        "Seconds since the last session with each peer ended that had no fault, or since the start.",
        out,
    )?;
    for peer in peers {
        let address = peer.address;
        let seconds = now.saturating_sub(peer.last) / 1_000;
        writeln!(
            out,
            "mvd_peer_seconds_since{{peer=\"{address}\"}} {seconds}"
        )?;
    }
    Ok(())
}
