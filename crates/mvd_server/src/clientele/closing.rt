//! The end of the clients, where a client asked that the server ends.
ghost use Rattle.std.specs.Prelude.{◌≡◌};
ghost use Rattle.mvd_server.specs.Talking.{TalksDeeds, talking_of};

use crate::client::Stage;
use crate::clientele::{Clientele, list, set_alarm};
use crate::crowd::{Crowd, LAST};
use crate::sockets::Sockets;

impl<K: Sockets> Clientele<K> {
    /// Lets nobody in any more, where that was asked for, and takes nothing more of those that are in: what is whole of
    /// each is answered, and then its connection ends.
    pub fn close_if_asked(&mut self, crowd: &mut Crowd, ready: &mut Vec<u64>)
        ensures { TalksDeeds crowd.old.talks crowd.new.talks }
    {
        if crowd.shuts() {
            self.close_all(crowd, ready);
        }
    }

    fn close_all(&mut self, crowd: &mut Crowd, ready: &mut Vec<u64>)
        ensures { TalksDeeds crowd.old.talks crowd.new.talks }
    {
        let mut from = 0;
        for _ in 0..u64::MAX {
            let Some(number) = self.first_from(from) else {
                return;
            };
            self.close_one(crowd, number, ready);
            from = number.saturating_add(1);
        }
    }

    /// The first client from this number on.
    fn first_from(&self, number: u64) -> Option<u64> {
        match self.clients.range(number..).next() {
            Some((client, _)) => Some(*client),
            None => None,
        }
    }

    fn close_one(&mut self, crowd: &mut Crowd, number: u64, ready: &mut Vec<u64>)
        ensures { TalksDeeds crowd.old.talks crowd.new.talks }
    {
        self.hasten(crowd, number, ready);
        crowd.talks.end_input(number);
    }

    /// A client has little time left.
    fn hasten(&mut self, crowd: &mut Crowd, number: u64, ready: &mut Vec<u64>)
        ensures { talking_of crowd.new.talks ≡ talking_of crowd.old.talks }
    {
        if let Some(client) = self.clients.get_mut(&number) {
            if let Stage::Served = client.stage {
                let due = crowd.now.saturating_add(LAST);
                set_alarm(&mut self.timers, client, number, due);
            }
            list(client, number, ready);
        }
        crowd.talks.hurry(number);
    }
}
