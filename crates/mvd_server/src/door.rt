//! The listener, and whom it lets in.
ghost use Rattle.mvd_server.specs.Wires.{Carries, wired_of};

use crate::clientele::Clientele;
use crate::crowd::Crowd;
use crate::sockets::Sockets;
use crate::talks::Kind;
use mio::{Registry, Token};
use std::alloc::AllocError;
use std::io::{self, ErrorKind};
use std::net::{Net, SocketAddr};

/// What the system tells of the listeners by. No client's number is as great.
pub(crate) const FRAMES: Token = Token(usize::MAX);

pub(crate) const HTTP: Token = Token(usize::MAX - 1);

/// The most that are let in at once, before those that are in have their turn.
const ROUND_MAX: usize = 256;

/// The milliseconds in which nobody is let in after the system refused to.
const PAUSE: u64 = 100;

/// A listener.
#[derive(Drop)]
pub(crate) struct Door<K: Sockets> {
    listener: K::Listener,
    /// Somebody may wait.
    pub knocks: bool,
    /// What those speak who come through it.
    kind: Kind,
    /// Nobody is let in before this time, in milliseconds.
    opens: u64,
}

impl<K: Sockets> Door<K> {
    pub fn new<N: Net>(
        rt: &N,
        registry: &Registry,
        address: SocketAddr,
        kind: Kind,
    ) -> io::Result<Door<K>> {
        let token = match kind {
            Kind::Frames => FRAMES,
            Kind::Http => HTTP,
        };
        Ok(Door {
            listener: K::listen(rt, registry, token, address)?,
            knocks: true,
            kind,
            opens: 0,
        })
    }

    /// When somebody may be let in. It is `None` where nobody waits, or nobody more may come.
    pub fn next_due(&self, clientele: &Clientele<K>, crowd: &Crowd) -> Option<u64> {
        if self.knocks && clientele.is_open(crowd) {
            Some(self.opens)
        } else {
            None
        }
    }

    /// Lets in who waits. Where all places are taken, that is told.
    pub fn admit(
        &mut self,
        registry: &Registry,
        sockets: &mut K,
        clientele: &mut Clientele<K>,
        crowd: &mut Crowd,
        ready: &mut Vec<u64>,
    ) -> Result<(), AllocError>
        ensures { Carries K.Sockets (wired_of crowd.old.talks sockets.old) (wired_of crowd.new.talks sockets.new) }
    {
        for _ in 0..ROUND_MAX {
            match self.next_due(clientele, crowd) {
                Some(due) if due <= crowd.now => {}
                _ => return Ok(()),
            }
            self.admit_one(registry, sockets, clientele, crowd, ready)?;
        }
        Ok(())
    }

    /// Lets in one, if one waits.
    fn admit_one(
        &mut self,
        registry: &Registry,
        sockets: &mut K,
        clientele: &mut Clientele<K>,
        crowd: &mut Crowd,
        ready: &mut Vec<u64>,
    ) -> Result<(), AllocError>
        ensures { Carries K.Sockets (wired_of crowd.old.talks sockets.old) (wired_of crowd.new.talks sockets.new) }
    {
        match K::accept(&self.listener) {
            Ok(arrival) => clientele.admit(crowd, registry, sockets, arrival, self.kind, ready),
            Err(error) => {
                self.refused(error.kind(), crowd.now);
                Ok(())
            }
        }
    }

    /// Nobody could be let in: nobody waits, who waited is gone, or the system has no room.
    fn refused(&mut self, kind: ErrorKind, now: u64) {
        match kind {
            ErrorKind::WouldBlock => self.knocks = false,
            ErrorKind::ConnectionAborted => {}
            _ => self.opens = now.saturating_add(PAUSE),
        }
    }
}
