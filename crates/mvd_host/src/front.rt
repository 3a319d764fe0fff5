//! What a round asks of what waits at hand: of each client a front, in order.
ghost use Rattle.std.specs.Prelude.{◌≡◌, ◌≤◌, ◌++◌, OnOk, List, [], ℕ, false, length, true, vec_capacity};
ghost use Rattle.std.specs.List.{list_any};
ghost use Rattle.mvd_wire.specs.declared.request.Request.{Request};
ghost use Rattle.mvd_host.specs.AtHand.{AllMayWait};
ghost use Rattle.mvd_host.specs.Course.{own};
ghost use Rattle.mvd_host.specs.Fronts.{has_some, waiting_in};

use crate::arranging::note;
use crate::weighing::{has_to_wait, weight};
use http_server::Log;
use mvd_site::Site;
use mvd_wire::Request;
use std::alloc::{AllocError, Global};
use std::collections::{BTreeSet, VecDeque};

/// What a client asked at once, as far as it waits still.
#[derive(Drop)]
pub(crate) struct Asking {
    pub(crate) client: u64,
    pub(crate) requests: VecDeque<Request>,
}

/// Whether something of what these ask waits.
pub(crate) fn some_waits(asking: &[Asking]) -> bool
    ensures { result ≡ list_any has_some asking.now }
{
    asking.iter().any(|one| !one.requests.is_empty())
}

/// What a round asks.
#[derive(Drop)]
pub(crate) struct Front {
    pub(crate) clients: Vec<u64>,
    pub(crate) requests: Vec<Request>,
    /// What they weigh.
    pub(crate) weighed: u64,
    /// The clients of which something has to wait for another round.
    held: BTreeSet<u64>,
    /// Memory was refused: all that was not taken waits.
    pub(crate) is_shut: bool,
    /// For proofs alone: all that was asked in rounds.
    pub(crate) done: Log<u64, Request>,
}

impl Front {
    ghost use Rattle.mvd_host.specs.Fronts.{HasPlace, KeepsFront, Parts, StopsTaking, TakesOne, asked_in};
    ghost use Rattle.mvd_site.specs.Held.{States};

    /// Nothing, behind what was asked in earlier rounds.
    pub(crate) fn new(alloc: Global, done: Log<u64, Request>) -> Front
        ensures { (states : States) → Parts states done.items [] [] result }
    {
        Front {
            clients: Vec::new(alloc),
            requests: Vec::new(alloc),
            weighed: 0,
            held: BTreeSet::new(alloc),
            is_shut: false,
            done,
        }
    }

    /// Makes room for one request more.
    fn make_room(&mut self) -> Result<(), AllocError>
        ensures same { KeepsFront self.old self.new }
        ensures room { OnOk result (HasPlace self.new) }
    {
        self.clients.reserve(1)?;
        self.requests.reserve(1)
    }

    /// Takes the next request of a client, unless there is none, or it has to wait for another round. Whether it was
    /// taken.
    #[tactic(auto, using(crate::proofs::Weights::waits_heavy))]
    fn take_one(&mut self, site: &Site, asking: &mut Asking) -> bool
        ensures takes { result ≡ true → TakesOne site.now.states asking.old asking.new self.old self.new }
        ensures stops { result ≡ false → StopsTaking asking.old asking.new self.old self.new }
    {
        let Some(request) = asking.requests.front() else {
            return false;
        };
        let weighs = weight(site, request);
        if has_to_wait(self.weighed, weighs) {
            return false;
        }
        if self.make_room().is_err() {
            self.is_shut = true;
            return false;
        }
        let Some(request) = asking.requests.pop_front() else {
            return false;
        };
        self.weighed = self.weighed.saturating_add(weighs);
        self.done = self.done.and(&asking.client, &request);
        self.clients.push_reserved(asking.client);
        self.requests.push_reserved(request);
        true
    }

    /// Takes of what a client asked what need not wait for another round.
    pub(crate) fn take(&mut self, site: &Site, asking: &mut Asking)
        ensures client { asking.new.client ≡ asking.old.client }
        ensures parts { (done asked waits : List (ℕ × Request)) → AllMayWait (asked_in asking.old) →
            Parts site.now.states done asked waits self.old →
            Parts site.now.states done (asked ++ asked_in asking.old) (waits ++ asked_in asking.new) self.new }
    {
        if self.is_shut || self.held.contains(&asking.client) {
            return;
        }
        'taking: while self.take_one(site, asking) {}
        if !asking.requests.is_empty() {
            note(&mut self.held, &mut self.is_shut, asking.client);
        }
    }

    /// Takes of what these ask what need not wait, and gives those of which something waits still: what the client of
    /// the first asks comes last, unless memory is refused for that.
    pub(crate) fn take_waiting(
        &mut self,
        alloc: Global,
        site: &Site,
        asking: Vec<Asking>,
    ) -> Vec<Asking>
        requires may { AllMayWait (waiting_in asking.items) }
        ensures { (done : List (ℕ × Request)) → Parts site.now.states done [] [] self.old →
            Parts site.now.states done (waiting_in asking.items) (waiting_in result.items) self.new }
    {
        let Ok(rest) = Vec::with_capacity(alloc, asking.len()) else {
            self.is_shut = true;
            return asking;
        };
        let rest = self.take_all(site, asking, rest);
        turned(alloc, rest)
    }

    /// Takes of what these ask what need not wait, and gives those of which something waits still.
    fn take_all(&mut self, site: &Site, asking: Vec<Asking>, mut rest: Vec<Asking>) -> Vec<Asking>
        requires none { rest.items ≡ [] }
        requires room { length asking.items ≤ vec_capacity rest }
        requires may { AllMayWait (waiting_in asking.items) }
        ensures { (done : List (ℕ × Request)) → Parts site.now.states done [] [] self.old →
            Parts site.now.states done (waiting_in asking.items) (waiting_in result.items) self.new }
    {
        for one in asking {
            let mut one = one;
            self.take(site, &mut one);
            if !one.requests.is_empty() {
                rest.push_reserved(one);
            }
        }
        rest
    }
}

/// The same, but what the client of the first asks comes last. Where memory is refused for that, as they are.
fn turned(alloc: Global, asking: Vec<Asking>) -> Vec<Asking>
    ensures own { (n : ℕ) → own n (waiting_in result.items) ≡ own n (waiting_in asking.items) }
    ensures may { AllMayWait (waiting_in asking.items) → AllMayWait (waiting_in result.items) }
{
    if asking.len() < 2 {
        return asking;
    }
    let client = asking[0].client;
    let Ok(others) = Vec::with_capacity(alloc, asking.len()) else {
        return asking;
    };
    let Ok(last) = Vec::with_capacity(alloc, asking.len()) else {
        return asking;
    };
    parted(client, asking, others, last)
}

/// What others ask, and behind that what this client does.
fn parted(
    client: u64,
    asking: Vec<Asking>,
    mut others: Vec<Asking>,
    mut last: Vec<Asking>,
) -> Vec<Asking>
    requires none { (others.items ≡ []) × (last.items ≡ []) }
    requires room { (length asking.items ≤ vec_capacity others) × (length asking.items ≤ vec_capacity last) }
    ensures own { (n : ℕ) → own n (waiting_in result.items) ≡ own n (waiting_in asking.items) }
    ensures may { AllMayWait (waiting_in asking.items) → AllMayWait (waiting_in result.items) }
{
    for one in asking {
        if one.client == client {
            last.push_reserved(one);
        } else {
            others.push_reserved(one);
        }
    }
    let _ = others.append(&mut last);
    others
}
