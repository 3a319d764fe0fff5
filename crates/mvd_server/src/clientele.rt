//! The clients' sockets, and when each is looked after.
mod admitting;
mod closing;

ghost use Rattle.std.specs.Prelude.{◌≡◌, IsTrue};
ghost use Rattle.mvd_server.specs.Closing.{IsDeserted};
ghost use Rattle.mvd_server.specs.Talking.{MayPart, TalksDeeds, talking_of};
ghost use Rattle.mvd_server.specs.Wires.{Carries, wired_of};

use crate::client::{Client, Piece, Stage};
use crate::crowd::{Crowd, SPARE};
use crate::endings::{is_good, tell_end};
use crate::passing::{drop_left, receive, send};
use crate::sockets::Sockets;
use crate::talks::Talks;
use crate::timers::{Timers, earlier};
use mio::event::Event;
use mvd_dots::Refusal;
use mvd_wire::Ending;
use std::alloc::{AllocError, Global};
use std::collections::BTreeMap;
use std::mem;

/// The most milliseconds that a client has to take its last frame, and then to end.
const LINGER: u64 = 2_000;

/// The clients' sockets, each by its number.
#[derive(Drop)]
pub(crate) struct Clientele<K: Sockets> {
    clients: BTreeMap<u64, Client<K>>,
    timers: Timers,
    piece: Piece,
}

impl<K: Sockets> Clientele<K> {
    pub fn new(alloc: Global) -> Result<Clientele<K>, AllocError> {
        let piece = Piece::new(alloc)?;
        Ok(Clientele {
            clients: BTreeMap::new(alloc),
            timers: Timers::new(alloc),
            piece,
        })
    }

    /// Whether all that are to come have come, and nobody is left.
    pub fn is_over(&self, crowd: &Crowd) -> bool
        ensures { IsTrue result → IsDeserted (talking_of crowd.entry.now.talks) }
    {
        crowd.is_shut() && self.clients.is_empty() && crowd.talks.clients() == 0
    }

    /// Whether another client may come now, if only to be told that there is no place.
    pub fn is_open(&self, crowd: &Crowd) -> bool {
        self.clients.len() < crowd.places.saturating_add(SPARE) && !crowd.is_shut()
    }

    /// Tells those that have waited for a change for long enough. Where the server is to end, all clients come to theirs.
    pub fn wake(&mut self, crowd: &mut Crowd, ready: &mut Vec<u64>)
        ensures { TalksDeeds crowd.old.talks crowd.new.talks }
    {
        self.wake_waiting(crowd, ready);
        self.close_if_asked(crowd, ready);
    }

    /// Tells those that have waited for a change for long enough, and lists all that were told.
    fn wake_waiting(&mut self, crowd: &mut Crowd, ready: &mut Vec<u64>)
        ensures { TalksDeeds crowd.old.talks crowd.new.talks }
    {
        crowd.talks.end_waits(crowd.now, &mut crowd.counts);
        for number in &crowd.talks.woken {
            if let Some(client) = self.clients.get_mut(number) {
                list(client, *number, ready);
            }
        }
        crowd.talks.woken.clear();
    }

    /// When a client is to be looked after next.
    pub fn next_due(&self, crowd: &Crowd) -> Option<u64> {
        earlier(self.timers.next_due(), crowd.talks.next_due())
    }

    /// Notes what the system told of a client's socket.
    pub fn note(&mut self, event: &Event, ready: &mut Vec<u64>) {
        let number = event.token().0 as u64;
        if let Some(client) = self.clients.get_mut(&number) {
            client.note(event);
            list(client, number, ready);
        }
    }

    /// Lists those of some clients of which a question came last.
    pub fn list_asking(&mut self, ready: &[u64], asking: &mut Vec<u64>) {
        for number in ready {
            if let Some(client) = self.clients.get_mut(number)
                && mem::replace(&mut client.asks, false)
            {
                let _ = asking.push(*number);
            }
        }
    }

    /// Reads once of each that is listed.
    pub fn read_all(&mut self, crowd: &mut Crowd, sockets: &mut K, listed: &[u64])
        ensures { Carries K.Sockets (wired_of crowd.old.talks sockets.old) (wired_of crowd.new.talks sockets.new) }
    {
        for number in listed {
            self.read(crowd, sockets, *number);
        }
    }

    /// Reads once, where something may be there and more is wanted.
    fn read(&mut self, crowd: &mut Crowd, sockets: &mut K, number: u64)
        ensures { Carries K.Sockets (wired_of crowd.old.talks sockets.old) (wired_of crowd.new.talks sockets.new) }
    {
        let Some(client) = self.clients.get_mut(&number) else {
            return;
        };
        if !client.readable {
            return;
        }
        match client.stage {
            Stage::Served => {
                let due = crowd.now.saturating_add(crowd.idle);
                receive(&mut crowd.talks, sockets, client, &mut self.piece, due);
            }
            Stage::Left(most) => {
                if !drop_left(&crowd.talks, sockets, client, &mut self.piece, most) {
                    self.remove(number);
                }
            }
        }
    }

    /// Writes once to each that is listed, and lists those for which there may be more to do at once.
    pub fn write_all(
        &mut self,
        crowd: &mut Crowd,
        sockets: &mut K,
        listed: &[u64],
        ready: &mut Vec<u64>,
    ) -> Result<(), AllocError>
        ensures { Carries K.Sockets (wired_of crowd.old.talks sockets.old) (wired_of crowd.new.talks sockets.new) }
    {
        for number in listed {
            self.write(crowd, sockets, *number)?;
            self.list_again(crowd, *number, ready);
        }
        Ok(())
    }

    /// Writes once to each that is listed.
    pub fn send_all(&mut self, crowd: &mut Crowd, sockets: &mut K, listed: &[u64])
        ensures { Carries K.Sockets (wired_of crowd.old.talks sockets.old) (wired_of crowd.new.talks sockets.new) }
    {
        for number in listed {
            self.send_to(crowd, sockets, *number);
        }
    }

    /// Writes once, where something waits and may be taken. Tells how the connection ended, where nothing is left to
    /// do.
    fn write(&mut self, crowd: &mut Crowd, sockets: &mut K, number: u64) -> Result<(), AllocError>
        ensures { Carries K.Sockets (wired_of crowd.old.talks sockets.old) (wired_of crowd.new.talks sockets.new) }
    {
        self.send_to(crowd, sockets, number);
        if !crowd.talks.is_done(number) {
            return Ok(());
        }
        self.finish(crowd, number)
    }

    /// Writes once, where something waits and may be taken.
    fn send_to(&mut self, crowd: &mut Crowd, sockets: &mut K, number: u64)
        ensures { Carries K.Sockets (wired_of crowd.old.talks sockets.old) (wired_of crowd.new.talks sockets.new) }
    {
        let due = crowd.now.saturating_add(crowd.idle);
        match self.clients.get_mut(&number) {
            Some(client) if client.writable => send(&mut crowd.talks, sockets, client, due),
            _ => {}
        }
    }

    /// Lets a connection go that is done. Its client has a while to take the last replies, unless those failed.
    fn finish(&mut self, crowd: &mut Crowd, number: u64) -> Result<(), AllocError>
        ensures { MayPart number (talking_of crowd.old.talks) → TalksDeeds crowd.old.talks crowd.new.talks }
    {
        let ending = crowd.talks.ending(number).unwrap_or(Ending::End);
        crowd.talks.dismiss(number);
        let Some(client) = self.clients.get_mut(&number) else {
            return Ok(());
        };
        let ordinal = client.ordinal;
        let due = crowd.now.saturating_add(LINGER);
        let stays = match ending {
            Ending::Stopped(Refusal::WriteFailed) => false,
            _ => client.leave() && set_alarm(&mut self.timers, client, number, due),
        };
        if !stays {
            self.remove(number);
        }
        if crowd.is_quiet && is_good(ending) {
            return Ok(());
        }
        tell_end(&mut crowd.told, ordinal, ending)
    }

    /// Lists a client again, where there may be more to do for it at once.
    fn list_again(&mut self, crowd: &mut Crowd, number: u64, ready: &mut Vec<u64>)
        ensures { talking_of crowd.new.talks ≡ talking_of crowd.old.talks }
    {
        if let Some(client) = self.clients.get_mut(&number) {
            client.listed = false;
            // One that waits for a change may have left.
            if client.has_left() {
                crowd.talks.hurry(number);
            }
            if is_busy(&crowd.talks, client, number) {
                list(client, number, ready);
            }
        }
    }

    /// Ends the clients of which no byte moved for too long. What came before they were due is heard of, however long
    /// this program stood still.
    pub fn end_idle(&mut self, crowd: &mut Crowd, ready: &mut Vec<u64>)
        ensures { TalksDeeds crowd.old.talks crowd.new.talks }
    {
        for _ in 0..u64::MAX {
            match self.timers.take_due(crowd.heard) {
                Some(number) => self.look_after(crowd, number, ready),
                None => return,
            }
        }
    }

    /// A client's time has come: it ends, unless a byte moved since that was set, or it waits for the answer to a request
    /// over HTTP.
    fn look_after(&mut self, crowd: &mut Crowd, number: u64, ready: &mut Vec<u64>)
        ensures { TalksDeeds crowd.old.talks crowd.new.talks }
    {
        let Some(client) = self.clients.get_mut(&number) else {
            return;
        };
        let due = if crowd.talks.awaits_answer(number) {
            crowd.now.saturating_add(crowd.idle)
        } else {
            client.deadline
        };
        if due > crowd.now && set_alarm(&mut self.timers, client, number, due) {
            return;
        }
        match client.stage {
            Stage::Left(_) => self.remove(number),
            Stage::Served => {
                list(client, number, ready);
                let due = crowd.now.saturating_add(LINGER);
                // It has a while to take the frame that tells it.
                let lingers = set_alarm(&mut self.timers, client, number, due);
                if lingers && crowd.talks.waiting(number).is_empty() {
                    crowd.talks.fail_input(number);
                } else {
                    crowd.talks.fail_output(number);
                }
            }
        }
    }

    fn remove(&mut self, number: u64) {
        if let Some(client) = self.clients.remove(&number) {
            self.timers.remove(client.alarm, number);
        }
    }
}

/// Lists a client for which there may be something to do.
fn list<K: Sockets>(client: &mut Client<K>, number: u64, ready: &mut Vec<u64>) {
    if !client.listed {
        client.listed = ready.push(number).is_ok();
    }
}

/// Sets when a client ends if no byte moves. It is `false` where memory was refused.
fn set_alarm<K: Sockets>(
    timers: &mut Timers,
    client: &mut Client<K>,
    number: u64,
    due: u64,
) -> bool {
    timers.remove(client.alarm, number);
    client.alarm = due;
    client.deadline = due;
    timers.set(due, number)
}

/// Whether there may be something to do for a client at once: to read, to write, or to take a frame or its end.
fn is_busy<K: Sockets>(talks: &Talks, client: &Client<K>, number: u64) -> bool {
    if let Stage::Left(_) = client.stage {
        return client.readable;
    }
    if client.writable && !talks.waiting(number).is_empty() {
        return true;
    }
    if talks.wants_input(number) {
        return client.readable;
    }
    talks.is_busy(number)
}
