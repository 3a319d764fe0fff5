//! A world of several sites, and the messages that they sent.
ghost use Rattle.std.specs.Prelude.{◌≡◌, ◌≢◌, ◌≤◌, ◌<◌, ◌-◌, false, true, length, IfErr, IfOk, OnOk, OnErr, None};
ghost use Rattle.std.specs.Prelude.{option_copied, [], ◌∷◌, ◌++◌};
ghost use Rattle.mvd_wire.specs.declared.reply.Reply.TheVariants.{Refused};
ghost use Rattle.mvd_dots.specs.declared.refusals.Refusal.TheVariants.{Memory};
ghost use Rattle.mvd_site.specs.Answer.{is_question};
ghost use Rattle.mvd_world.specs.declared.steps.Step.TheVariants.{Receive, Send as Send_step, Session};
ghost use Rattle.mvd_world.specs.declared.steps.Outcome.TheVariants.{NoSuch, Replied};
ghost use Rattle.mvd_world.specs.Machine.{AnswersAtSite, IsOwn, MeetSites, Receives, Takes, is_numbered, is_write, may_be};
ghost use Rattle.mvd_world.specs.Machine.{nothing_yet, setting_of};
ghost use Rattle.mvd_world.specs.Worlds.{AreShort, IsWorld, KnownChangesNothing, Leads, StaysTheSame, Steps, site_at};
ghost use Rattle.mvd_world.specs.Worlds.{TakesSent, state_of_message};

use crate::sessions::sync_at;
use crate::steps::{Outcome, Step};
use mvd_dots::Refusal;
use mvd_keys::{Key, KeyState};
use mvd_rows::Defs;
use mvd_site::{Config, Site};
use mvd_sync::{Report, SyncFault};
use mvd_wire::{Reply, Request};
use std::alloc::Global;

/// A key's state on its way to other sites. It shares its documents with the state that the site holds.
#[derive(Drop)]
pub struct Message {
    key: Key,
    state: KeyState,
}

/// Sites numbered from 1, and the messages sent, numbered from 1.
#[derive(Drop)]
pub struct World {
    alloc: Global,
    sites: Vec<Site>,
    messages: Vec<Message>,
}

impl World {
    /// This many sites with no key, each of which may hold `max_keys` keys and has these indexes and views.
    pub fn new(alloc: Global, count: u32, max_keys: u32, defs: Defs) -> Result<World, Refusal>
        requires some { 1 ≤ count }
        requires few { count ≤ 16 }
        requires low { 0 < max_keys }
        requires high { max_keys ≤ 1000000 }
        ensures world { IfOk result (λ world. IsWorld (setting_of count max_keys defs) world nothing_yet) }
        ensures short { IfOk result AreShort }
        ensures only { IfErr result (λ refusal. refusal ≡ Memory) }
    {
        let mut sites = Vec::new(alloc);
        for site in 0..count {
            let config = Config::new(site + 1, max_keys, defs.copy()?);
            sites.push(Site::new(alloc, config)?)?;
        }
        Ok(World {
            alloc,
            sites,
            messages: Vec::new(alloc),
        })
    }

    /// The site of this number, if there is one.
    pub fn site(&self, number: u32) -> Option<&Site>
        ensures { option_copied result ≡ site_at self.now number }
    {
        let index = number.checked_sub(1)?;
        self.sites.get(index as usize)
    }

    /// Takes one step. Where there is no such step, nothing is changed.
    pub fn step(&mut self, step: &Step) -> Outcome
        ensures machine { Steps self.old self.new step.now result }
        // A message that has nothing new for its site leaves the very same world.
        ensures same { StaysTheSame self.old self.new step.now }
        // So does one of which the site already knows each write; it is done, or memory was refused, or the site says
        // that it is broken.
        ensures known { KnownChangesNothing self.old self.new step.now result }
        // No message comes to be longer than a state may be.
        ensures short { AreShort self.old → AreShort self.new }
        // Where there is no such step, it is told, and the world is the very same.
        ensures none { may_be (is_numbered (length self.old.sites.items)) (length self.old.messages.items) step.now
            ≡ false → (result ≡ NoSuch) × (self.new ≡ self.old) }
    {
        if !self.may_be(step) {
            return Outcome::NoSuch;
        }
        match step {
            Step::Write { site, request } => Outcome::Replied(self.answer(*site, request)),
            Step::Ask { site, request } => Outcome::Replied(self.answer(*site, request)),
            Step::Send { site, key } => self.send(*site, key),
            Step::Receive { site, message } => Outcome::Replied(self.receive(*site, *message)),
            Step::Session { local, peer } => match self.meet(*local, *peer) {
                Ok(report) => Outcome::Met(report),
                Err(fault) => Outcome::Failed(fault),
            },
        }
    }

    /// Whether there are the sites and the message that the step names, and its request is of its sort.
    fn may_be(&self, step: &Step) -> bool
        ensures { result
            ≡ may_be (is_numbered (length self.now.sites.items)) (length self.now.messages.items) step.now }
    {
        let sites = self.sites.len();
        match step {
            Step::Write { site, request } => is_numbered(sites, u64::from(*site))
                && is_write(request),
            Step::Ask { site, request } => is_numbered(sites, u64::from(*site))
                && is_question(request),
            Step::Send { site, .. } => is_numbered(sites, u64::from(*site)),
            Step::Receive { site, message } => {
                is_numbered(sites, u64::from(*site)) && is_numbered(self.messages.len(), *message)
            }
            Step::Session { local, peer } => {
                is_numbered(sites, u64::from(*local))
                    && is_numbered(sites, u64::from(*peer))
                    && local != peer
            }
        }
    }

    /// The site's reply to a request.
    fn answer(&mut self, site: u32, request: &Request) -> Reply
        requires some { 1 ≤ site }
        requires within { site ≤ length self.old.sites.items }
        requires own { IsOwn request.now }
        ensures leads { Leads self.old self.new (λ setting before after.
            AnswersAtSite setting before site request.now result after) }
        ensures short { AreShort self.old → AreShort self.new }
    {
        let site = &mut self.sites[site as usize - 1];
        site.answer(request)
    }

    /// The site's state of a key becomes the next message, whose number is told.
    fn send(&mut self, site: u32, key: &Key) -> Outcome
        requires some { 1 ≤ site }
        requires within { site ≤ length self.old.sites.items }
        ensures leads { Leads self.old self.new (λ setting before after.
            Takes setting before (Send_step site key.now) result after) }
        ensures short { AreShort self.old → AreShort self.new }
    {
        let sender = &self.sites[site as usize - 1];
        sender.stands();
        match sender.get(key) {
            Err(refusal) => Outcome::Replied(Reply::Refused(refusal)),
            Ok(state) => match self.append(key, state) {
                Err(refusal) => Outcome::Replied(Reply::Refused(refusal)),
                Ok(()) => Outcome::Sent(self.messages.len() as u64),
            },
        }
    }

    /// The state of the key becomes the last message.
    fn append(&mut self, key: &Key, state: KeyState) -> Result<(), Refusal>
        ensures sites { self.new.sites.items ≡ self.old.sites.items }
        ensures ok { OnOk result (self.new.messages.items
            ≡ self.old.messages.items ++ record { key = key.now; state = state } ∷ []) }
        ensures memory { IfErr result (λ refusal. refusal ≡ Memory) }
        ensures err { OnErr result (self.new.messages.items ≡ self.old.messages.items) }
    {
        let key = key.copy(self.alloc)?;
        self.messages.push(Message { key, state })?;
        Ok(())
    }

    /// A message comes to a site.
    fn receive(&mut self, site: u32, message: u64) -> Reply
        requires some { 1 ≤ site }
        requires within { site ≤ length self.old.sites.items }
        requires some_message { 1 ≤ message }
        requires within_messages { message ≤ length self.old.messages.items }
        ensures leads { Leads self.old self.new (λ setting before after.
            Receives setting before site message result after) }
        ensures same { StaysTheSame self.old self.new (Receive site message) }
        ensures known { KnownChangesNothing self.old self.new (Receive site message) (Replied result) }
        ensures short { AreShort self.old → AreShort self.new }
    {
        let message = &self.messages[message as usize - 1];
        let taker = &mut self.sites[site as usize - 1];
        taker.stands();
        match taker.push(&message.key, &message.state) {
            Ok(()) => Reply::Done,
            Err(refusal) => Reply::Refused(refusal),
        }
    }

    /// Whether there are two such sites.
    pub(crate) fn may_meet(&self, local: u32, peer: u32) -> bool
        ensures { result ≡ may_be (is_numbered (length self.now.sites.items)) (length self.now.messages.items)
            (Session local peer) }
    {
        self.has(local) && self.has(peer) && local != peer
    }

    /// Whether there is a site of this number.
    fn has(&self, site: u32) -> bool
        ensures { result ≡ is_numbered (length self.now.sites.items) site }
    {
        is_numbered(self.sites.len(), u64::from(site))
    }

    /// A state that was sent comes to a site.
    pub(crate) fn take(&mut self, site: u32, key: &Key, state: &KeyState) -> Outcome
        // Whichever message it is.
        ensures { TakesSent self.old self.new site (record { key = key.now; state = state.now }) result }
    {
        if !self.has(site) {
            return Outcome::NoSuch;
        }
        let taker = &mut self.sites[site as usize - 1];
        taker.stands();
        match taker.push(key, state) {
            Ok(()) => Outcome::Replied(Reply::Done),
            Err(refusal) => Outcome::Replied(Reply::Refused(refusal)),
        }
    }

    /// The state that is a message, if there is one of this number.
    pub(crate) fn sent(&self, number: u64) -> Option<&KeyState>
        ensures { option_copied result ≡ state_of_message self.now number }
    {
        if !is_numbered(self.messages.len(), number) {
            return None;
        }
        Some(&self.messages[number as usize - 1].state)
    }

    /// A session of two sites.
    fn meet(&mut self, local: u32, peer: u32) -> Result<Report, SyncFault>
        requires some_local { 1 ≤ local }
        requires within_local { local ≤ length self.old.sites.items }
        requires some_peer { 1 ≤ peer }
        requires within_peer { peer ≤ length self.old.sites.items }
        requires two { local ≢ peer }
        ensures leads { Leads self.old self.new
            (λ setting before after. MeetSites setting before local peer result after) }
        ensures short { AreShort self.old → AreShort self.new }
    {
        sync_at(
            self.alloc,
            &mut self.sites,
            local as usize - 1,
            peer as usize - 1,
        )
    }
}

pub(crate) fn is_numbered(count: usize, number: u64) -> bool
    ensures { result ≡ is_numbered count number }
{
    0 < number && number <= count as u64
}

fn is_write(request: &Request) -> bool
    ensures { result ≡ is_write request.now }
{
    matches!(request, Request::Put(..) | Request::Delete(..))
}

fn is_question(request: &Request) -> bool
    ensures { result ≡ is_question request.now }
{
    !matches!(
        request,
        Request::Put(..)
            | Request::Delete(..)
            | Request::Push(..)
            | Request::Hello(_)
            | Request::Bye
    )
}
