//! The sessions of this server's own, which ask at hand.
ghost use Rattle.std.specs.Prelude.{◌≡◌, ◌++◌, ◌∷◌, [], false, nat_le, true};
ghost use Rattle.mvd_server.specs.OwnSides.{AdmitsOwn, HandsRequests};
ghost use Rattle.mvd_server.specs.Talking.{AreOfSession, TalksDeeds, first_own, is_of_session, talking_of};

use crate::talks::Talks;
use mvd_wire::{Reply, Request};
use std::alloc::Global;
use std::mem;

/// The numbers of the sessions begin here. Those of clients over HTTP are less.
pub(crate) const FIRST_OWN: u64 = 3 << 62;

/// What the sessions were told, each by its number, and whether a reply was lost, since memory was refused for it.
#[derive(Drop)]
pub(crate) struct Heard {
    pub told: Vec<(u64, Reply)>,
    pub has_lost: bool,
}

impl Heard {
    pub fn new(alloc: Global) -> Heard
        ensures told { result.told.items ≡ [] }
        ensures lost { result.has_lost ≡ false }
    {
        Heard {
            told: Vec::new(alloc),
            has_lost: false,
        }
    }

    /// A session is told this.
    pub fn push(&mut self, number: u64, reply: Reply)
        ensures told { self.new.has_lost ≡ false → self.new.told.items ≡ self.old.told.items ++ (number, reply) ∷ [] }
        ensures lost { self.old.has_lost ≡ true → self.new.has_lost ≡ true }
    {
        if self.told.push((number, reply)).is_err() {
            self.has_lost = true;
        }
    }
}

impl Talks {
    /// Gives a session its number. It is `None` where all were given.
    pub fn admit_own(&mut self) -> Option<u64>
        ensures { AdmitsOwn self.old result self.new }
    {
        let number = self.sessions;
        if number == u64::MAX {
            return None;
        }
        self.sessions = number + 1;
        Some(number)
    }

    /// Asks all of these for a session, which are gone then. Where there is no memory for that, or one is of no session,
    /// none is asked.
    pub fn ask_own(&mut self, number: u64, requests: &mut Vec<Request>)
        ensures hands { HandsRequests number requests.old.items self.old.hand requests.new.items self.new.hand }
        ensures talks { self.new ≡ record self.old { hand = self.new.hand } }
        ensures deeds { TalksDeeds self.old self.new }
    {
        if is_own(number) && are_of_session(requests) {
            let _ = self.hand.ask_all(number, requests);
        }
    }

    /// What the sessions were told since.
    pub fn take_heard(&mut self) -> Heard
        ensures heard { result ≡ self.old.heard }
        ensures none { self.new.heard.told.items ≡ [] }
        ensures talks { talking_of self.new ≡ talking_of self.old }
    {
        mem::replace(&mut self.heard, Heard::new(self.alloc))
    }
}

/// Whether all of these are what a session asks.
fn are_of_session(requests: &[Request]) -> bool
    ensures { result ≡ true → AreOfSession requests.now }
{
    for request in requests {
        if !is_of_session(request) {
            return false;
        }
    }
    true
}

/// Whether a session asks this: a node, a page of keys, a state, or a push of one.
fn is_of_session(request: &Request) -> bool
    ensures { result ≡ is_of_session request.now }
{
    matches!(
        request,
        Request::Node(_) | Request::Bucket(_, _) | Request::Get(_) | Request::Push(_, _)
    )
}

/// Whether a number is that of a session.
pub(crate) fn is_own(number: u64) -> bool
    ensures { result ≡ nat_le first_own number }
{
    number >= FIRST_OWN
}
