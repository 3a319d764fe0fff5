//! What all sessions with peers share, and what is told of them.
ghost use Rattle.std.specs.Prelude.{◌≡◌, ◌++◌, IfOk, OnOk, string_bytes};
ghost use Rattle.mvd_server.specs.PeerNews.{MayTell, TellsIf, again_text, failed_text, is_due, noted_with, peer_text};
ghost use Rattle.mvd_server.specs.PeerNews.{some_text, told_at};

use crate::client::Piece;
use crate::terms::Terms;
use mvd_dots::Refusal;
use mvd_meet::is_among;
use mvd_sync::{Left, Report, Side};
use mvd_wire::{Items, Token};
use std::alloc::{AllocError, Global};
use std::fmt::Write as Print;
use std::net::SocketAddr;

/// The least seconds between two sessions at which no connection is kept from one to the next.
const APART: u32 = 60;

/// The milliseconds between two lines on what sessions with a peer exchanged.
const APART_TOLD: u64 = 1_000;

/// What all sessions share.
#[derive(Drop)]
pub(crate) struct Setting {
    pub alloc: Global,
    /// The number of this site.
    pub number: u32,
    /// For as many milliseconds no byte need move.
    pub idle: u64,
    /// A connection stays open from one session to the next.
    pub stays: bool,
    /// What a session exchanged is not told.
    pub is_quiet: bool,
    /// No session begins, and each ends between two of its windows.
    pub is_ending: bool,
    /// Each peer is shown it first, if there is one.
    pub token: Option<Token>,
    pub piece: Piece,
    /// What is to be told on standard error.
    pub errors: String,
}

impl Setting {
    pub fn new(alloc: Global, number: u32, terms: Terms<'_>) -> Result<Setting, AllocError> {
        let token = match terms.tokens {
            Some(tokens) => match tokens.shown.copy(alloc) {
                Ok(token) => Some(token),
                Err(_) => return Err(AllocError),
            },
            None => None,
        };
        let piece = Piece::new(alloc)?;
        Ok(Setting {
            alloc,
            number,
            idle: u64::from(terms.idle).saturating_mul(1_000),
            stays: terms.every < APART,
            is_quiet: terms.quiet,
            is_ending: false,
            token,
            piece,
            errors: String::new(alloc),
        })
    }
}

/// What the sessions with a peer exchanged since that was told: how many keys in all, how many were older, and how many
/// the last of them left. Until `next` no more is told.
#[derive(Clone, Copy)]
pub(crate) struct Untold {
    keys: u64,
    refused: u64,
    older: u64,
    next: u64,
}

impl Untold {
    /// Before the first session.
    pub fn new() -> Untold
        ensures { result ≡ record { keys = 0; refused = 0; older = 0; next = 0 } }
    {
        Untold {
            keys: 0,
            refused: 0,
            older: 0,
            next: 0,
        }
    }

    /// Notes what a session exchanged, if it did.
    pub fn note(&mut self, report: &Report)
        ensures { self.new ≡ noted_with report.now self.old }
    {
        if report.keys > 0 {
            self.keys = self.keys.saturating_add(report.keys);
            self.refused = report.refused;
            self.older = self.older.saturating_add(report.old);
        }
    }

    /// When it is to be told, if something is.
    pub fn due(&self) -> Option<u64> {
        if self.keys > 0 { Some(self.next) } else { None }
    }

    /// Tells it, at most once a second. What memory is refused for is not told.
    #[tactic(auto, using(crate::proofs::PeerTelling::tells_on, crate::proofs::PeerTelling::tells_off))]
    pub fn tell(&mut self, address: SocketAddr, now: u64, told: &mut String)
        ensures untold { self.new ≡ told_at now self.old }
        ensures told { TellsIf (is_due now self.old) (peer_text address self.old)
            (string_bytes told.old) (string_bytes told.new) }
    {
        if self.keys == 0 || now < self.next {
            return;
        }
        self.tell_line(address, told);
        *self = Untold::new();
        self.next = now.saturating_add(APART_TOLD);
    }

    /// Tells it in a line, or nothing where memory is refused.
    #[tactic(auto, using(crate::proofs::PeerTelling::whole_line))]
    fn tell_line(&self, address: SocketAddr, told: &mut String)
        ensures { MayTell (peer_text address self.now) (string_bytes told.old) (string_bytes told.new) }
    {
        if let Ok(line) = self.line(*told.allocator(), address) {
            let _ = told.push_str(line.as_str());
        }
    }

    /// A line with how many keys were exchanged, how many were refused and how many were older, where some were.
    fn line(&self, alloc: Global, address: SocketAddr) -> Result<String, Refusal>
        ensures { IfOk result (λ line. string_bytes line ≡ peer_text address self.now) }
    {
        let mut line = String::new(alloc);
        write!(line, "peer {address} keys {}", self.keys)?;
        print_some("refused", self.refused, &mut line)?;
        print_some("older", self.older, &mut line)?;
        line.push('\n')?;
        Ok(line)
    }
}

/// Prints a count behind its name, unless it is none.
fn print_some(name: &str, count: u64, told: &mut String) -> Result<(), Refusal>
    ensures { OnOk result (string_bytes told.new ≡ string_bytes told.old ++ some_text name.now count) }
{
    if count > 0 {
        write!(told, " {name} {count}")?;
    }
    Ok(())
}

/// Tells that a session with a peer failed, and why; or nothing where memory is refused.
#[tactic(auto, using(crate::proofs::PeerTelling::whole_line))]
pub(crate) fn tell_failed(address: SocketAddr, refusal: Refusal, told: &mut String)
    ensures { MayTell (failed_text address refusal) (string_bytes told.old) (string_bytes told.new) }
{
    let alloc = *told.allocator();
    if let Ok(line) = format!(in alloc; "peer {address} {refusal}\n") {
        let _ = told.push_str(line.as_str());
    }
}

/// Tells that a session with a peer is done after one that failed; or nothing where memory is refused.
#[tactic(auto, using(crate::proofs::PeerTelling::whole_line))]
pub(crate) fn tell_again(address: SocketAddr, told: &mut String)
    ensures { MayTell (again_text address) (string_bytes told.old) (string_bytes told.new) }
{
    let alloc = *told.allocator();
    if let Ok(line) = format!(in alloc; "peer {address} again\n") {
        let _ = told.push_str(line.as_str());
    }
}

/// Tells which keys were left, by which side, and how, but for those that were left so before.
pub(crate) fn tell_left(
    address: SocketAddr,
    before: &Option<Items<Left>>,
    after: &Items<Left>,
    errors: &mut String,
) {
    for left in after.as_slice() {
        if let Some(before) = before
            && is_among(left, before.as_slice())
        {
            continue;
        }
        let _ = write!(errors, "mvd: key {}: {} at ", left.key.text(), left.refusal);
        let _ = match left.side {
            Side::Local => writeln!(errors, "this side"),
            Side::Peer => writeln!(errors, "{address}"),
        };
    }
}
