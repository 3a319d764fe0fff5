//! The order of a pass: who asks is answered before the changes of others are committed.
ghost use Rattle.std.specs.Prelude.{◌≡◌, ◌++◌, drop, take};
ghost use Rattle.mvd_server.specs.Rounds.{AnswersClients, GoesOnServing};
ghost use Rattle.mvd_server.specs.Wires.{wired_of};

use crate::server::Server;
use crate::sockets::Sockets;
use crate::talks::own::Heard;
use mvd_replica::Replica;
use sqlite::Alter;
use std::time::Clock;

/// The most rounds that follow each other before replies leave.
const ROUNDS_MAX: usize = 64;

/// Lists the first client last: each time another comes first, for a change of a long state may have to wait for the
/// next round.
fn take_turns(ready: &mut Vec<u64>)
    ensures { ready.new.items ≡ drop 1 ready.old.items ++ take 1 ready.old.items }
{
    if !ready.is_empty() {
        ready.rotate_left(1);
    }
}

impl<K: Sockets> Server<K> {
    /// Answers the clients of which a question came, and writes to them, before the changes of others are committed.
    pub fn answer_asking<N: Clock, S: Alter + Drop>(
        &mut self,
        rt: &N,
        sockets: &mut K,
        replica: &mut Replica<S>,
    )
        ensures { GoesOnServing K.Sockets (wired_of self.old.crowd.talks sockets.old) replica.old
            (wired_of self.new.crowd.talks sockets.new) replica.new }
    {
        self.next.clear();
        self.clientele.list_asking(&self.ready, &mut self.next);
        // Where all ask, no change is there to wait for.
        if self.next.is_empty() || self.next.len() == self.ready.len() {
            return;
        }
        self.crowd.round(rt, replica, &self.next);
        self.clientele
            .send_all(&mut self.crowd, sockets, &self.next);
    }

    /// Answers what came of the clients that are listed, and what the sessions with peers ask.
    pub fn answer<N: Clock, S: Alter + Drop>(&mut self, rt: &N, replica: &mut Replica<S>)
        ensures { AnswersClients self.old.crowd.talks replica.old self.new.crowd.talks replica.new }
    {
        take_turns(&mut self.ready);
        self.peers.hand_on(&mut self.crowd);
        self.answer_all(rt, replica);
        let Heard { told, has_lost } = self.crowd.talks.take_heard();
        self.peers.hear_all(&mut self.crowd, told);
        self.peers
            .note_commits(&mut self.crowd, has_lost, replica.commits());
    }

    /// Answers what came of those that are listed: together what may be, and then what came behind it.
    fn answer_all<N: Clock, S: Alter + Drop>(&mut self, rt: &N, replica: &mut Replica<S>)
        ensures { AnswersClients self.old.crowd.talks replica.old self.new.crowd.talks replica.new }
    {
        for _round in 0..ROUNDS_MAX {
            if !self.crowd.round(rt, replica, &self.ready) {
                return;
            }
        }
    }
}
