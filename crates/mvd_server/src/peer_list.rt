//! The peers that this server meets while it serves.
ghost use Rattle.std.specs.Prelude.{◌≡◌, ◌≢◌, ◌≤◌, ◌+◌, ◌-◌, IfSome, None, length, true};
ghost use Rattle.std.specs.List.{All};
ghost use Rattle.mvd_server.specs.PeerSays.{PeersSay, said_by_all};
ghost use Rattle.mvd_server.specs.Peerings.{HaveNews, IsLentAt, LooksInTime, places_taken};
ghost use Rattle.mvd_server.specs.Replied.{HaveEnded, HaveNone, HearsAll, HearsAs, IsPlaceOf};
ghost use Rattle.mvd_server.specs.Talking.{TalksDeeds};
ghost use Rattle.mvd_server.specs.declared.crowd.Crowd.{Crowd};

use crate::crowd::{Crowd, LAST};
use crate::peer_counts::PeerCounts;
use crate::peer_news::Setting;
use crate::peering::Peering;
use crate::terms::Terms;
use crate::timers::earlier;
use mio::event::Event;
use mio::{Registry, Token};
use mvd_input::tell;
use mvd_wire::Reply;
use std::alloc::{AllocError, Global};
use std::io::Write;
use std::net::Net;

/// What the system tells of the first peer by. No client's number is as great.
const FIRST: usize = usize::MAX - 2;

/// The most sessions that go on at a time past their first question.
pub(crate) const SESSIONS_MAX: usize = 4;

#[derive(Drop)]
pub(crate) struct Peers {
    list: Vec<Peering>,
    /// The place of the one that has its turn first: the one behind who took a place last.
    first: usize,
    setting: Setting,
    /// The commits of this server's site until the last round.
    commits: u64,
    /// When the sessions that still go on are let go, once the server is to end.
    until: u64,
    // Few sessions go on at a time.
    ghost few: { places_taken list.items ≤ 4 },
}

impl Peers {
    pub fn new(alloc: Global, number: u32, terms: Terms<'_>) -> Result<Peers, AllocError> {
        let setting = Setting::new(alloc, number, terms)?;
        let mut list = Vec::with_capacity(alloc, terms.peers.len())?;
        for address in terms.peers {
            let place = list.len();
            let token = Token(FIRST.saturating_sub(place));
            list.push(Peering::new(place, *address, token, terms.every))?;
        }
        Ok(Peers {
            list,
            first: 0,
            setting,
            commits: 0,
            until: 0,
        })
    }

    /// What is counted of each.
    pub fn counts(alloc: Global, terms: Terms<'_>) -> Result<Vec<PeerCounts>, AllocError> {
        let mut counts = Vec::with_capacity(alloc, terms.peers.len())?;
        for address in terms.peers {
            counts.push(PeerCounts::new(*address))?;
        }
        Ok(counts)
    }

    /// The number of sessions more that may go on.
    fn free(&self) -> usize
        ensures { result ≡ 4 - places_taken self.now.list.items }
    {
        let mut free = SESSIONS_MAX;
        for peering in &self.list {
            if peering.runs() {
                free = free.saturating_sub(1);
            }
        }
        free
    }

    /// When one is to be looked after, if nothing moves.
    pub fn next_due(&self) -> Option<u64>
        // A peer of which nothing is asked is looked after once it is due.
        ensures { LooksInTime self.now.list.items result }
    {
        let waits = self.wait();
        let mut first = None;
        for peering in &self.list {
            first = earlier(first, peering.next_due(waits));
        }
        first
    }

    /// Whether sessions wait for a place.
    fn wait(&self) -> bool {
        self.list.iter().any(|peering| peering.wants_place())
    }

    /// Whether something is to be done at once.
    pub fn are_busy(&self) -> bool {
        let free = self.free();
        self.list.iter().any(|peering| peering.is_busy(free))
    }

    /// Notes what the system told of a peer's socket. Whether it is one.
    pub fn note(&mut self, event: &Event) -> bool {
        let mut is_one = false;
        for peering in self.list.iter_mut() {
            is_one = peering.note(event) || is_one;
        }
        is_one
    }

    /// Connects to those that are due, and goes on with each session as far as can be without waiting. Before that,
    /// places are given up; then the one behind who took a place last comes first, so that each gets one in its turn.
    pub fn go_on<N: Net>(&mut self, rt: &N, registry: &Registry, crowd: &mut Crowd)
        ensures deeds { TalksDeeds crowd.old.talks crowd.new.talks }
        // Of its peers the server tells what their sessions came to, and nothing else.
        ensures says { PeersSay (said_by_all self.old.list.items self.old.setting crowd.old)
            (said_by_all self.new.list.items self.new.setting crowd.new) }
    {
        self.close(crowd.talks.is_ending, crowd.now);
        let waits = self.wait();
        self.give_back(waits, crowd.now);
        let mut free = self.free();
        let count = self.list.len();
        let first = self.first;
        for turn in 0..count {
            let place = first.saturating_add(turn) % count;
            let before = free;
            self.go_on_with(place, rt, registry, crowd, &mut free);
            self.note_turn(place, free < before);
        }
    }

    /// Where the server is to end, no session begins any more. Where none goes on, or they had their time, there is no
    /// peer any more.
    fn close(&mut self, is_ending: bool, now: u64)
        ensures says { (crowd : Crowd) → PeersSay (said_by_all self.old.list.items self.old.setting crowd)
            (said_by_all self.new.list.items self.new.setting crowd) }
    {
        if !is_ending {
            return;
        }
        if !self.setting.is_ending {
            self.until = now.saturating_add(LAST);
        }
        self.setting.is_ending = true;
        if self.free() == SESSIONS_MAX || self.until <= now {
            self.list.clear();
        }
    }

    /// When the sessions that go on are let go, where the server is to end.
    pub fn ending_due(&self) -> Option<u64> {
        if self.are_ending() {
            return Some(self.until);
        }
        None
    }

    /// Whether sessions are to end, and go on.
    pub fn are_ending(&self) -> bool {
        self.setting.is_ending && self.free() < SESSIONS_MAX
    }

    /// Where one took a place, the one behind it comes first from now on.
    fn note_turn(&mut self, place: usize, is_taken: bool)
        ensures { self.new ≡ record self.old { first = self.new.first } }
    {
        if is_taken {
            self.first = place.saturating_add(1);
        }
    }

    /// The sessions give up their places whose loans are over, where others wait, and those of which no byte moved for
    /// a while.
    fn give_back(&mut self, waits: bool, now: u64)
        // Where others wait, no place is kept past its loan.
        ensures lends { waits ≡ true → All (IsLentAt now) self.new.list.items }
        ensures says { (crowd : Crowd) → PeersSay (said_by_all self.old.list.items self.old.setting crowd)
            (said_by_all self.new.list.items self.new.setting crowd) }
    {
        for peering in self.list.iter_mut() {
            peering.give_back(waits, now);
        }
    }

    /// Goes on with one of them. Where it takes a place for its session, one place less is free.
    fn go_on_with<N: Net>(
        &mut self,
        place: usize,
        rt: &N,
        registry: &Registry,
        crowd: &mut Crowd,
        free: &mut usize,
    )
        requires { places_taken self.old.list.items + free.old ≤ 4 }
        ensures few { places_taken self.new.list.items + free.new ≤ 4 }
        ensures all { length self.new.list.items ≡ length self.old.list.items }
        ensures deeds { TalksDeeds crowd.old.talks crowd.new.talks }
        ensures says { PeersSay (said_by_all self.old.list.items self.old.setting crowd.old)
            (said_by_all self.new.list.items self.new.setting crowd.new) }
    {
        if place < self.list.len() {
            let peering = &mut self.list[place];
            peering.connect(rt, registry, &self.setting, crowd);
            peering.go_on(&mut self.setting, crowd, free);
            peering.tell(crowd);
        }
    }

    /// Hands on what the sessions ask of this server's site.
    pub fn hand_on(&mut self, crowd: &mut Crowd)
        ensures deeds { TalksDeeds crowd.old.talks crowd.new.talks }
        ensures says { PeersSay (said_by_all self.old.list.items self.old.setting crowd.old)
            (said_by_all self.new.list.items self.new.setting crowd.new) }
    {
        for peering in self.list.iter_mut() {
            peering.hand_on(crowd);
        }
    }

    /// Takes what the site told the sessions, each of them what it was told. Where one has ended, nobody is told.
    pub fn hear_all(&mut self, crowd: &mut Crowd, told: Vec<(u64, Reply)>)
        ensures hears { HearsAll told.items self.old.list.items self.new.list.items }
        ensures rest { self.new ≡ record self.old { list = self.new.list; few = self.new.few } }
        ensures deeds { TalksDeeds crowd.old.talks crowd.new.talks }
        ensures says { PeersSay (said_by_all self.old.list.items self.old.setting crowd.old)
            (said_by_all self.new.list.items self.new.setting crowd.new) }
    {
        for (client, reply) in told {
            self.hear(crowd, client, reply);
        }
    }

    /// Takes what the site told one of the sessions.
    fn hear(&mut self, crowd: &mut Crowd, client: u64, reply: Reply)
        ensures hears { HearsAs client reply self.old.list.items self.new.list.items }
        ensures rest { self.new ≡ record self.old { list = self.new.list; few = self.new.few } }
        ensures deeds { TalksDeeds crowd.old.talks crowd.new.talks }
        ensures says { PeersSay (said_by_all self.old.list.items self.old.setting crowd.old)
            (said_by_all self.new.list.items self.new.setting crowd.new) }
    {
        let Some(place) = self.place_of(client) else {
            return;
        };
        self.list[place].hear(crowd, reply);
    }

    /// The place of the one whose session has this number, if one has.
    fn place_of(&self, client: u64) -> Option<usize>
        ensures some { IfSome result (IsPlaceOf client self.now.list.items) }
        ensures none { result ≡ None → HaveNone client self.now.list.items }
    {
        for place in 0..self.list.len() {
            if self.list[place].asks_as(client) {
                return Some(place);
            }
        }
        None
    }

    /// Notes whether something was committed: then all peers are met soon. Sessions fail that wait for replies which may
    /// be lost.
    pub fn note_commits(&mut self, crowd: &mut Crowd, has_lost: bool, commits: u64)
        ensures news { self.old.commits ≢ commits → HaveNews self.new.list.items }
        ensures noted { self.new.commits ≡ commits }
        ensures lost { HaveEnded has_lost self.old.list.items self.new.list.items }
        ensures deeds { TalksDeeds crowd.old.talks crowd.new.talks }
        ensures says { PeersSay (said_by_all self.old.list.items self.old.setting crowd.old)
            (said_by_all self.new.list.items self.new.setting crowd.new) }
    {
        let changed = commits != self.commits;
        self.commits = commits;
        for peering in self.list.iter_mut() {
            peering.look(crowd, has_lost, changed);
        }
    }

    /// Tells which keys were left, if some are to be told. What cannot be written is left out.
    pub fn tell_errors<E: Write>(&mut self, errors: &mut E) {
        let lines = &mut self.setting.errors;
        if lines.is_empty() {
            return;
        }
        let _ = tell(errors, lines);
        lines.clear();
    }
}
