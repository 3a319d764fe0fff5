//! What a server is asked for.
use crate::tokens::Tokens;
use mvd_conn::Passes;
use mvd_host::CLIENTS_MAX;
use mvd_http::Names;
use std::alloc::{AllocError, Global};
use std::net::SocketAddr;

/// What a server is asked for: the port for HTTP, if it serves that too, how many connections it serves in all, for how
/// many seconds no byte need move on one, and how many clients it serves at once. Where there are tokens, who comes in
/// shows one of them, and their file is read again as it changes. Over HTTP it may be asked by the names of a list, and by
/// pages of the origins of another, each with commas between its items. Where it is quiet it tells faults alone. Each peer
/// is met again as many seconds after a session.
#[derive(Clone, Copy)]
pub struct Terms<'a> {
    pub http: Option<u16>,
    pub conns: Option<u32>,
    pub idle: u32,
    pub clients: u32,
    pub tokens: Option<&'a Tokens>,
    pub token_file: &'a str,
    pub hosts: &'a str,
    pub origins: &'a str,
    pub quiet: bool,
    pub peers: &'a [SocketAddr],
    pub every: u32,
}

impl Terms<'_> {
    ghost use Rattle.std.specs.Prelude.{◌≡◌, ◌/◌, IfOk};
    ghost use Rattle.mvd_http.specs.Guard.{named_by};
    ghost use Rattle.mvd_server.specs.TokenFiles.{names_asked, passes_asked};

    /// The passes of those who may come in, if not everybody may.
    pub(crate) fn passes(self, alloc: Global) -> Result<Option<Passes>, AllocError>
        ensures { IfOk result (λ passes. passes ≡ passes_asked self.entry) }
    {
        match self.tokens {
            Some(tokens) => Ok(Some(tokens.passes.copy(alloc)?)),
            None => Ok(None),
        }
    }

    /// The most clients that are served at once. Beside them the host has a place for a session with each peer.
    pub(crate) fn places(self) -> usize {
        (self.clients as usize).min(CLIENTS_MAX.saturating_sub(self.peers.len()))
    }

    /// By which names it is asked, and of which origins a page may ask: by any name, where a token is asked for.
    #[tactic(auto, using(crate::proofs::Errands::copied_some))]
    pub(crate) fn names(self, alloc: Global) -> Result<Names, AllocError>
        ensures { IfOk result (λ names. named_by names ≡ names_asked self.entry) }
    {
        Ok(Names {
            hosts: String::from_str(alloc, self.hosts)?,
            origins: String::from_str(alloc, self.origins)?,
            any_host: self.tokens.is_some(),
        })
    }

    /// The most clients that may wait for a change at once, so that there are places for those who write.
    pub(crate) fn waits_max(self) -> usize
        ensures { result ≡ self.entry.clients / 2 }
    {
        self.clients as usize / 2
    }
}
