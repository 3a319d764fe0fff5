//! Requests at hand: a round answers them together with the frames of connections, and gives their replies as values.
ghost use Rattle.std.specs.Prelude.{◌≡◌, ◌≢◌, ◌∷◌, ◌<◌, ◌≤◌, ◌⊎◌, ◌↔◌, ℕ, List, [], IfErr, IsTrue, OnErr, OnOk, false, length};
ghost use Rattle.std.specs.Prelude.{true, zip};
ghost use Rattle.mvd_host.specs.AtHand.{AllMayWait, MayWait, asks_of};
ghost use Rattle.mvd_dots.specs.declared.refusals.Refusal.TheVariants as Refusal;
ghost use Rattle.mvd_site.specs.Known.{IsValidRequest};

use crate::front::{Asking, Front, some_waits};
use http_server::Log;
use mvd_dots::Refusal;
use mvd_site::Site;
use mvd_wire::{Reply, Request};
use std::alloc::Global;
use std::collections::VecDeque;
use std::marker::Model;
use std::mem;

/// The numbers of clients at hand begin here. Those of connections are less.
pub const FIRST_AT_HAND: u64 = 1 << 62;

/// What the clients of a round were told: each its own reply, or all of them one refusal.
#[derive(Drop)]
pub(crate) enum Told {
    Each(Vec<Reply>),
    All(Refusal),
}

impl Told {
    ghost use Rattle.mvd_host.specs.KeptAtHand.{TakesAt, TakesNext, left_of};

    /// Takes what the client at this place was told, if it was told anything.
    fn take(&mut self, at: usize) -> Option<Reply>
        ensures { (clients : List ℕ) → at < length clients → TakesAt clients at self.old result self.new }
    {
        match *self {
            Told::Each(ref mut replies) => {
                if at >= replies.len() {
                    return None;
                }
                Some(mem::replace(&mut replies[at], Reply::Done))
            }
            Told::All(refusal) => Some(Reply::Refused(refusal)),
        }
    }

    /// Goes on over these clients to the next that is at hand, and takes what it was told.
    fn next(&mut self, clients: &[u64], at: &mut usize) -> Option<(u64, Reply)>
        ensures { TakesNext (left_of clients.now self.old at.old) result (left_of clients.now self.new at.new) }
    {
        while *at < clients.len() {
            let client = clients[*at];
            let reply = self.take(*at)?;
            *at += 1;
            if client >= FIRST_AT_HAND {
                return Some((client, reply));
            }
        }
        None
    }
}

/// What clients ask that are no connections, and what they are told.
#[derive(Drop)]
pub struct AtHand {
    alloc: Global,
    /// What waits for a round.
    asking: Vec<Asking>,
    /// The clients of the last round, connections too, what they were told, and how many of that were gone over.
    answered: Vec<u64>,
    told: Told,
    next: usize,
    /// For proofs alone: all that was asked in rounds, and all replies that were taken away.
    done: Log<u64, Request>,
    taken: Log<u64, Reply>,
}

impl Model for AtHand {
    ghost use Rattle.mvd_host.specs.AtHand.{AtHandValue};

    ghost Value = { AtHandValue };

    ghost use Rattle.std.specs.Coded.{codes};
    ghost use Rattle.mvd_dots.specs.Context.{dot_set_code};
    ghost use Rattle.mvd_dots.specs.Dot.{dot_code};
    ghost use Rattle.mvd_keys.specs.State.{state_code};

    ghost coded = { Prim.hlevel (codes, dot_code, dot_set_code, state_code) };

    ghost use Rattle.mvd_host.specs.KeptAtHand.{IsKeptAtHand, at_hand_of};

    ghost view = { at_hand_of };

    ghost invariant = { IsKeptAtHand };
}

impl AtHand {
    ghost use Rattle.mvd_host.specs.AtHand.{BeginsWith, TakesFirst, asked_by_one, none_at_hand, told_at_hand};
    ghost use Rattle.mvd_host.specs.Weights.{IsWeighed};
    ghost use Rattle.mvd_host.specs.KeptAtHand.{told_each};

    /// Nothing is asked, and nothing is told.
    pub fn new(alloc: Global) -> AtHand
        ensures { result ≡ none_at_hand }
    {
        AtHand {
            alloc,
            asking: Vec::new(alloc),
            answered: Vec::new(alloc),
            told: Told::Each(Vec::new(alloc)),
            next: 0,
            done: Log::new(),
            taken: Log::new(),
        }
    }

    /// A client asks something. It is refused where memory is; and `BadKind` where the client is none at hand.
    pub fn ask(&mut self, client: u64, request: Request) -> Result<(), Refusal>
        ensures ok { OnOk result (MayWait (client, request) × (self.new ≡ asked_by_one self.old client (request ∷ []))) }
        ensures err { IfErr result (λ e. (self.new ≡ self.old) × (MayWait (client, request) → e ≡ Refusal.Memory)) }
    {
        if !may_wait(client, &request) {
            return Err(Refusal::BadKind);
        }
        self.asking.reserve(1)?;
        let mut requests = Vec::with_capacity(self.alloc, 1)?;
        requests.push_reserved(request);
        self.asking.push_reserved(Asking {
            client,
            requests: VecDeque::from(requests),
        });
        Ok(())
    }

    /// A client asks all of these, which are gone then. Where that is refused, none is asked.
    pub fn ask_all(&mut self, client: u64, requests: &mut Vec<Request>) -> Result<(), Refusal>
        ensures ok { OnOk result (AllMayWait (asks_of client requests.old.items) × (requests.new.items ≡ [])
            × (self.new ≡ asked_by_one self.old client requests.old.items)) }
        ensures err { OnErr result ((self.new ≡ self.old) × (requests.new ≡ requests.old)) }
        ensures cause { IfErr result (λ e. AllMayWait (asks_of client requests.old.items) → e ≡ Refusal.Memory) }
    {
        if !all_may_wait(client, requests) {
            return Err(Refusal::BadKind);
        }
        if requests.is_empty() {
            return Ok(());
        }
        self.asking.reserve(1)?;
        let asked = mem::replace(requests, Vec::new(self.alloc));
        self.asking.push_reserved(Asking {
            client,
            requests: VecDeque::from(asked),
        });
        Ok(())
    }

    /// The next reply that is left, with its client, if there is one.
    pub fn next(&mut self) -> Option<(u64, Reply)>
        ensures { TakesFirst self.old result self.new }
    {
        if let Some((client, reply)) = self.told.next(&self.answered, &mut self.next) {
            self.taken = self.taken.and(&client, &reply);
            return Some((client, reply));
        }
        // None is left: their memory is given back.
        self.answered = Vec::new(self.alloc);
        self.told = Told::Each(Vec::new(self.alloc));
        self.next = 0;
        None
    }

    /// Whether something waits.
    pub fn has_waiting(&self) -> bool
        ensures none { result ≡ false → self.now.waits ≡ [] }
        ensures some { result ≡ true → self.now.waits ≢ [] }
    {
        some_waits(&self.asking)
    }

    /// What a round asks of what waits: of each client a front, which is all that it asked, unless the states that the
    /// front changes have 4,194,304 bytes. Where memory was refused, less.
    pub(crate) fn begin(&mut self, site: &Site) -> Front
        ensures begins { BeginsWith (zip result.clients.items result.requests.items) self.old self.new }
        ensures pairs { length result.clients.items ≡ length result.requests.items }
        ensures may { AllMayWait (zip result.clients.items result.requests.items) }
        ensures waits { AllMayWait self.old.waits }
        ensures weighed { IsWeighed site.now.states result.requests.items result.weighed }
        ensures rest { result.is_shut ≡ false → (self.new.waits ≡ []) ⊎ (4194304 ≤ result.weighed) }
    {
        let mut front = Front::new(self.alloc, mem::replace(&mut self.done, Log::new()));
        let asking = mem::replace(&mut self.asking, Vec::new(self.alloc));
        self.asking = front.take_waiting(self.alloc, site, asking);
        self.done = mem::replace(&mut front.done, Log::new());
        front
    }

    /// Keeps what the clients of a round were told.
    pub(crate) fn keep(&mut self, clients: Vec<u64>, told: Told)
        requires { self.old.left ≡ [] }
        ensures { self.new ≡ record self.old { left = told_at_hand (told_each clients.items told) } }
    {
        self.answered = clients;
        self.told = told;
        self.next = 0;
    }
}

/// Whether a client may ask this at hand.
fn may_wait(client: u64, request: &Request) -> bool
    ensures { IsTrue result ↔ MayWait (client, request.now) }
{
    is_of_writes(request);
    client >= FIRST_AT_HAND
}

/// A state that is pushed is one of some writes: each of its siblings has a dot that was seen.
fn is_of_writes(request: &Request)
    ensures { IsValidRequest request.now }
{
    if let Request::Push(_, state) = request {
        let _seen = state.context();
    }
}

/// Whether a client may ask all of these at hand.
fn all_may_wait(client: u64, requests: &[Request]) -> bool
    ensures all { result ≡ true → AllMayWait (asks_of client requests.now) }
    ensures only { AllMayWait (asks_of client requests.now) → result ≡ true }
{
    for request in requests {
        if !may_wait(client, request) {
            return false;
        }
    }
    true
}
