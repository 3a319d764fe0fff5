//! A server of many clients at once, from one thread.
mod asking;
mod opening;

ghost use Rattle.mvd_server.specs.Peerings.{WakesInTime};
ghost use Rattle.std.specs.Prelude.{◌≡◌, ◌≢◌, ◌⊎◌, [], IfErr, IsSome, IsSomeAnd, OnOk};
ghost use Rattle.std.specs.Duration.{as_nanos};
ghost use Rattle.mvd_dots.specs.declared.refusals.Refusal.TheVariants.{Memory, ReadFailed, WriteFailed};
ghost use Rattle.mvd_input.specs.declared.fault.Fault.TheVariants.{Stopped};
ghost use Rattle.mvd_replica.specs.Replicas.{site_of};
ghost use Rattle.mvd_server.specs.Closing.{EndsAtFault, EndsServed, EndsWithRoot, IsDeserted};
ghost use Rattle.mvd_server.specs.Rounds.{GoesOnServing, IsServed};
ghost use Rattle.mvd_server.specs.Talking.{TalksDeeds, talking_of};
ghost use Rattle.mvd_server.specs.TokenFiles.{names_asked, passes_asked};
ghost use Rattle.mvd_server.specs.Wires.{Carries, wired_of};

use crate::clientele::Clientele;
use crate::crowd::Crowd;
use crate::door::{Door, FRAMES, HTTP};
use crate::look::Look;
use crate::peer_list::Peers;
use crate::rotation::Rotation;
use crate::server::opening::listening;
use crate::sockets::Sockets;
use crate::telling::{tell_listening, tell_root};
use crate::terms::Terms;
use crate::timers::{earlier, millis_of};
use mio::{Events, Poll};
use mvd_dots::Refusal;
use mvd_hint::{Stop, Watch};
use mvd_input::{Fault, tell};
use mvd_replica::Replica;
use sqlite::Alter;
use std::alloc::{AllocError, Global};
use std::fs::Files;
use std::io::Write;
use std::mem;
use std::net::{Net, SocketAddr};
use std::random::RandomSource;
use std::time::{Clock, Duration, Instant};

/// The clients, the listeners, the peers, and those clients for which there may be something to do.
#[derive(Drop)]
struct Server<K: Sockets> {
    poll: Poll,
    events: Events,
    frames: Door<K>,
    http: Option<Door<K>>,
    peers: Peers,
    crowd: Crowd,
    clientele: Clientele<K>,
    ready: Vec<u64>,
    next: Vec<u64>,
    start: Instant,
    look: Look,
    rotation: Rotation,
}

/// Serves so many connections at an address, or without end, many at once, and tells where it listens, how each
/// connection ended, and at the end the root digest. Each line is flushed as it is written.
///
/// What came together of all clients is answered together, and then the replies leave. No client is waited for.
/// Meanwhile it has sessions with its peers, whose questions to the site are answered among those of the clients; keys
/// that one left are told on `errors`. It is `Stopped` with `ReadFailed` where it cannot listen or wait, and with
/// `WriteFailed` where a line cannot be written.
pub fn serve_run<
    'a,
    N: Net + Clock + RandomSource + Files,
    K: Sockets,
    S: Alter + Drop,
    W: Write,
    E: Write,
>(
    rt: &N,
    alloc: Global,
    sockets: &mut K,
    replica: &mut Replica<S>,
    address: SocketAddr,
    terms: Terms<'_>,
    watch: &mut Watch,
    writer: &mut W,
    errors: &mut E,
) -> Result<(), Stop<'a>>
    // However it ends, the site changed by turns of one host alone, of which its clients and its sessions with peers
    // ask, and its records follow.
    ensures served { IsServed K.Sockets (passes_asked terms.entry) (names_asked terms.entry)
        sockets.old replica.old sockets.new replica.new }
    // Where it ends well, nobody is left.
    ensures left { OnOk result (EndsServed K.Sockets (passes_asked terms.entry) (names_asked terms.entry)
        sockets.old replica.old sockets.new replica.new) }
    // Then the last line that it printed is the root of its site.
    ensures root { OnOk result (EndsWithRoot (site_of replica.new) (W.contents writer.new)) }
    // Else there is a cause; where it could not listen, nothing was served.
    ensures cause { IfErr result (λ stop. EndsAtFault (site_of replica.new) stop.fault) }
    ensures unheard { IfErr result (λ stop. IsSome stop.hint →
        (sockets.new ≡ sockets.old) × (replica.new ≡ replica.old)) }
{
    let number = replica.config().site();
    let mut server = listening::<N, K>(rt, alloc, address, number, terms)?;
    let served = server.serve_at::<N, S, W, E>(
        rt, alloc, sockets, replica, address, terms, watch, writer, errors,
    );
    drop(server);
    Ok(served?)
}

impl<K: Sockets> Server<K> {
    /// Serves, and tells the address before and the root digest after that.
    fn serve_at<N: Net + Clock + Files, S: Alter + Drop, W: Write, E: Write>(
        &mut self,
        rt: &N,
        alloc: Global,
        sockets: &mut K,
        replica: &mut Replica<S>,
        address: SocketAddr,
        terms: Terms<'_>,
        watch: &mut Watch,
        writer: &mut W,
        errors: &mut E,
    ) -> Result<(), Fault>
        ensures goes { GoesOnServing K.Sockets (wired_of self.old.crowd.talks sockets.old) replica.old
            (wired_of self.new.crowd.talks sockets.new) replica.new }
        ensures left { OnOk result (IsDeserted (talking_of self.new.crowd.talks)) }
        ensures root { OnOk result (EndsWithRoot (site_of replica.new) (W.contents writer.new)) }
        ensures cause { IfErr result (EndsAtFault (site_of replica.new)) }
    {
        tell_listening(alloc, address, terms, writer)?;
        self.serve(rt, sockets, replica, watch, writer, errors)?;
        tell_root(alloc, replica, writer)
    }

    /// Serves until all connections have ended. Where a client asked for that, nobody is let in any more, and sessions
    /// with peers end between two of their windows.
    fn serve<N: Net + Clock + Files, S: Alter + Drop, W: Write, E: Write>(
        &mut self,
        rt: &N,
        sockets: &mut K,
        replica: &mut Replica<S>,
        watch: &mut Watch,
        writer: &mut W,
        errors: &mut E,
    ) -> Result<(), Fault>
        ensures goes { GoesOnServing K.Sockets (wired_of self.old.crowd.talks sockets.old) replica.old
            (wired_of self.new.crowd.talks sockets.new) replica.new }
        ensures left { OnOk result (IsDeserted (talking_of self.new.crowd.talks)) }
        ensures cause { IfErr result (EndsAtFault (site_of replica.new)) }
    {
        for _round in 0..u64::MAX {
            if self.clientele.is_over(&self.crowd) && !self.peers.are_ending() {
                return Ok(());
            }
            self.crowd.counts.lengths = watch.lengths();
            self.serve_once(rt, sockets, replica, writer, errors)?;
            self.look
                .look(rt, watch, self.crowd.now, replica.commits())?;
        }
        // No server lives so long.
        Err(Fault::Stopped(Refusal::ReadFailed))
    }

    /// Waits until there may be something to do, and does what there is.
    fn serve_once<N: Net + Clock + Files, S: Alter + Drop, W: Write, E: Write>(
        &mut self,
        rt: &N,
        sockets: &mut K,
        replica: &mut Replica<S>,
        writer: &mut W,
        errors: &mut E,
    ) -> Result<(), Fault>
        ensures goes { GoesOnServing K.Sockets (wired_of self.old.crowd.talks sockets.old) replica.old
            (wired_of self.new.crowd.talks sockets.new) replica.new }
        ensures cause { IfErr result (EndsAtFault (site_of replica.new)) }
    {
        self.wait(rt)?;
        self.take_in(sockets)?;
        self.rotate(rt);
        self.peers.go_on(rt, self.poll.registry(), &mut self.crowd);
        self.answer_asking(rt, sockets, replica);
        self.answer(rt, replica);
        self.clientele.wake(&mut self.crowd, &mut self.ready);
        self.give_out(sockets, writer)?;
        self.peers.tell_errors(errors);
        self.rotation.tell_errors(errors);
        Ok(())
    }

    /// Looks at the file with tokens: other passes are known from then on, if it changed. Also where nobody is there who
    /// may show one, for who waits may be told of what a session brings.
    fn rotate<N: Files>(&mut self, rt: &N)
        ensures { TalksDeeds self.old.crowd.talks self.new.crowd.talks }
    {
        if let Some(tokens) = self.rotation.look(rt, self.crowd.now) {
            self.crowd
                .talks
                .rotate(tokens.passes, &mut self.crowd.counts);
        }
    }

    /// Waits until there may be something to do, and lists the clients of which the system tells so.
    fn wait<N: Clock>(&mut self, rt: &N) -> Result<(), Fault>
        ensures talks { self.new.crowd.talks ≡ self.old.crowd.talks }
        ensures cause { IfErr result (λ fault. fault ≡ Stopped ReadFailed) }
    {
        let pause = self.pause();
        // What came until now is told by this wait.
        self.crowd.heard = self.crowd.now;
        if self.poll.poll(&mut self.events, pause).is_err() {
            return Err(Fault::Stopped(Refusal::ReadFailed));
        }
        // A clock that cannot be read stands still.
        if let Ok(passed) = self.start.elapsed(rt) {
            self.crowd.now = millis_of(passed);
            self.crowd.counts.timing.wake(passed);
        }
        for event in &self.events {
            let token = event.token();
            if token == FRAMES {
                self.frames.knocks = true;
            } else if token == HTTP {
                if let Some(door) = &mut self.http {
                    door.knocks = true;
                }
            } else if !self.peers.note(event) {
                self.clientele.note(event, &mut self.ready);
            }
        }
        Ok(())
    }

    /// How long nothing needs to be done if the system tells of nothing.
    fn pause(&self) -> Option<Duration>
        ensures peers { WakesInTime self.now.peers.list.items self.now.crowd.now result }
        // It does not sleep while something that was asked at hand waits for a round.
        ensures waits { self.now.crowd.talks.hand.waits ≢ [] → IsSomeAnd result (λ time. as_nanos time ≡ 0) }
    {
        if !self.ready.is_empty() || self.peers.are_busy() || self.crowd.talks.has_waiting() {
            return Some(Duration::ZERO);
        }
        let clients = self.clientele.next_due(&self.crowd);
        let due = earlier(clients, self.peers.next_due());
        let looks = earlier(self.next_in(), self.next_look());
        let first = earlier(due, looks)?;
        Some(Duration::from_millis(first.saturating_sub(self.crowd.now)))
    }

    /// When the file is looked at, or sessions are let go.
    fn next_look(&self) -> Option<u64> {
        earlier(self.look.due, self.peers.ending_due())
    }

    /// When somebody may be let in.
    fn next_in(&self) -> Option<u64> {
        let frames = self.frames.next_due(&self.clientele, &self.crowd);
        match &self.http {
            Some(door) => earlier(frames, door.next_due(&self.clientele, &self.crowd)),
            None => frames,
        }
    }

    /// Lets clients in, reads once of each that is listed, and ends those that are idle: not for want of what came
    /// while the server was busy.
    fn take_in(&mut self, sockets: &mut K) -> Result<(), AllocError>
        ensures { Carries K.Sockets (wired_of self.old.crowd.talks sockets.old)
            (wired_of self.new.crowd.talks sockets.new) }
    {
        self.let_in(sockets)?;
        self.clientele
            .read_all(&mut self.crowd, sockets, &self.ready);
        self.clientele.end_idle(&mut self.crowd, &mut self.ready);
        Ok(())
    }

    /// Lets clients in.
    fn let_in(&mut self, sockets: &mut K) -> Result<(), AllocError>
        ensures { Carries K.Sockets (wired_of self.old.crowd.talks sockets.old)
            (wired_of self.new.crowd.talks sockets.new) }
    {
        let registry = self.poll.registry();
        self.frames.admit(
            registry,
            sockets,
            &mut self.clientele,
            &mut self.crowd,
            &mut self.ready,
        )?;
        if let Some(door) = &mut self.http {
            door.admit(
                registry,
                sockets,
                &mut self.clientele,
                &mut self.crowd,
                &mut self.ready,
            )?;
        }
        Ok(())
    }

    /// Writes once to each client that is listed, tells which ended, and lists those for which there may be more to
    /// do at once.
    fn give_out<W: Write>(&mut self, sockets: &mut K, writer: &mut W) -> Result<(), Fault>
        ensures carries { Carries K.Sockets (wired_of self.old.crowd.talks sockets.old)
            (wired_of self.new.crowd.talks sockets.new) }
        ensures cause { IfErr result (λ fault. (fault ≡ Stopped Memory) ⊎ (fault ≡ Stopped WriteFailed)) }
    {
        mem::swap(&mut self.ready, &mut self.next);
        self.ready.clear();
        self.clientele
            .write_all(&mut self.crowd, sockets, &self.next, &mut self.ready)?;
        if self.crowd.told.is_empty() {
            return Ok(());
        }
        tell(writer, &mut self.crowd.told)
    }
}
