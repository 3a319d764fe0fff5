//! A server that listens, before anybody came.
ghost use Rattle.std.specs.Prelude.{◌≡◌, IfErr, IfOk};
ghost use Rattle.mvd_dots.specs.declared.refusals.Refusal.TheVariants.{ReadFailed};
ghost use Rattle.mvd_input.specs.declared.fault.Fault.TheVariants.{Stopped};
ghost use Rattle.mvd_server.specs.Rounds.{BeginsServing};
ghost use Rattle.mvd_server.specs.TokenFiles.{names_asked, passes_asked};

use crate::clientele::Clientele;
use crate::crowd::{Crowd, SPARE};
use crate::door::Door;
use crate::look::Look;
use crate::peer_list::Peers;
use crate::rotation::Rotation;
use crate::server::Server;
use crate::sockets::Sockets;
use crate::talks::Kind;
use crate::telling::web_address;
use crate::terms::Terms;
use mio::{Events, Poll};
use mvd_hint::Stop;
use std::alloc::Global;
use std::hash::RandomState;
use std::io;
use std::net::{Net, SocketAddr};
use std::random::RandomSource;
use std::time::{Clock, Instant};

/// A server that listens at an address, and for HTTP at its own port, if it serves that too.
pub(super) fn listening<'a, N: Net + Clock + RandomSource, K: Sockets>(
    rt: &N,
    alloc: Global,
    address: SocketAddr,
    number: u32,
    terms: Terms<'_>,
) -> Result<Server<K>, Stop<'a>>
    ensures begins { IfOk result (λ server.
        BeginsServing (passes_asked terms.entry) (names_asked terms.entry) server.crowd.talks) }
    ensures unheard { IfErr result (λ stop. stop.fault ≡ Stopped ReadFailed) }
{
    match Server::<K>::new(rt, alloc, address, number, terms) {
        Ok(server) => with_web(rt, server, web_address(address, terms)),
        Err(error) => Err(Stop::unheard(address, error)),
    }
}

/// The same server, which listens at this address too, if there is one.
fn with_web<'a, N: Net, K: Sockets>(
    rt: &N,
    mut server: Server<K>,
    address: Option<SocketAddr>,
) -> Result<Server<K>, Stop<'a>>
    ensures talks { IfOk result (λ new. new.crowd.talks ≡ server.crowd.talks) }
    ensures unheard { IfErr result (λ stop. stop.fault ≡ Stopped ReadFailed) }
{
    let Some(address) = address else {
        return Ok(server);
    };
    match server.open_web(rt, address) {
        Ok(()) => Ok(server),
        Err(error) => {
            drop(server);
            Err(Stop::unheard(address, error))
        }
    }
}

impl<K: Sockets> Server<K> {
    fn new<N: Net + Clock + RandomSource>(
        rt: &N,
        alloc: Global,
        address: SocketAddr,
        number: u32,
        terms: Terms<'_>,
    ) -> io::Result<Server<K>>
        ensures { IfOk result (λ server.
            BeginsServing (passes_asked terms.entry) (names_asked terms.entry) server.crowd.talks) }
    {
        let start = Instant::now(rt)?;
        let keys = RandomState::new(rt)?;
        let sockets = terms.clients as usize + SPARE;
        let ready = Vec::with_capacity(alloc, 2 * sockets)?;
        let next = Vec::with_capacity(alloc, 2 * sockets)?;
        let events = Events::with_capacity(alloc, sockets.saturating_add(terms.peers.len()))?;
        let poll = Poll::new(rt)?;
        let frames = Door::<K>::new(rt, poll.registry(), address, Kind::Frames)?;
        // Those that own most come last: each value before them is let go where a later one fails.
        let rotation = Rotation::new(alloc, terms.token_file)?;
        let peers = Peers::new(alloc, number, terms)?;
        let clientele = Clientele::<K>::new(alloc)?;
        let crowd = Crowd::new(alloc, keys, terms, start)?;
        Ok(Server {
            poll,
            events,
            frames,
            http: None,
            peers,
            crowd,
            clientele,
            ready,
            next,
            start,
            look: Look::new(),
            rotation,
        })
    }

    /// Listens at an address for HTTP, too.
    fn open_web<N: Net>(&mut self, rt: &N, address: SocketAddr) -> io::Result<()>
        ensures { self.new.crowd.talks ≡ self.old.crowd.talks }
    {
        let door = Door::<K>::new(rt, self.poll.registry(), address, Kind::Http)?;
        self.http = Some(door);
        Ok(())
    }
}
