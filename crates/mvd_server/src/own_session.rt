//! A session of this server's own site: the side that is near is asked at hand.
ghost use Rattle.std.specs.Prelude.{◌≡◌, ◌-◌, ◌&&◌, IfErr, IfOk, IfSome, OnErr, OnOk, false, not, true};
ghost use Rattle.mvd_meet.specs.Callers.{has_all};
ghost use Rattle.mvd_meet.specs.Inboxes.{awaits_pushes};
ghost use Rattle.mvd_meet.specs.Meetings.{MeetingFails, MeetingSteps, ReportsOn};
ghost use Rattle.mvd_meet.specs.Nears.{NearHears, asked_near, asked_of_near, near_has_all};
ghost use Rattle.mvd_server.specs.OwnSides.{BeginsOwn, HandsOn, MovesAtHand};
ghost use Rattle.mvd_server.specs.Peerings.{SwapsPlaces};
ghost use Rattle.mvd_server.specs.Talking.{TalksDeeds};

use crate::talks::Talks;
use mvd_dots::Refusal;
use mvd_meet::{Caller, Course, Meeting, Near};
use mvd_sync::{Report, SyncFault};
use mvd_wire::Reply;
use std::alloc::Global;

/// A session: its number at hand, what goes on between the two sides, and whether it has one of the places for those
/// that go on.
#[derive(Drop)]
pub(crate) struct OwnSession {
    pub client: u64,
    near: Near,
    meeting: Meeting,
    pub runs: bool,
}

impl OwnSession {
    /// A session in which nothing was asked. It is `None` where all numbers were given.
    pub fn begin(
        alloc: Global,
        talks: &mut Talks,
        number: u32,
    ) -> Result<Option<OwnSession>, SyncFault>
        ensures begins { IfOk result (λ begun. BeginsOwn number talks.old begun talks.new) }
        ensures waits { IfOk result (λ begun. IfSome begun (λ session. session.runs ≡ false)) }
        ensures deeds { TalksDeeds talks.old talks.new }
    {
        let meeting = Meeting::new(alloc, number)?;
        let Some(client) = talks.admit_own() else {
            return Ok(None);
        };
        Ok(Some(OwnSession {
            client,
            near: Near::new(alloc),
            meeting,
            runs: false,
        }))
    }

    /// Whether all came of both sides that is due.
    pub fn can_step(&self, far: &Caller) -> bool
        ensures { result ≡ near_has_all self.now.near && has_all far.now }
    {
        self.near.has_all() && far.has_all()
    }

    /// Whether it wants a place: all came of both sides, or bytes of the peer wait to be read.
    pub fn wants_place(&self, far: &Caller, is_unread: bool) -> bool {
        is_unread || self.can_step(far)
    }

    /// Whether all came of both sides, and it has a place. It takes one where it wants it and one is free.
    #[tactic(auto, using(crate::proofs::Swapping::same_without))]
    pub fn has_turn(&mut self, far: &Caller, is_unread: bool, free: &mut usize) -> bool
        ensures swaps { SwapsPlaces self.old.runs free.old self.new.runs free.new }
        ensures turn { result ≡ true → self.new.runs ≡ true }
        ensures rests { self.old.runs ≡ false → free.old ≡ 0 → self.new ≡ self.old }
        ensures session { self.new ≡ record self.old { runs = self.new.runs } }
    {
        self.wants_place(far, is_unread) && self.take_place(free) && self.can_step(far)
    }

    /// Takes a place, unless it has one or none is free. Whether it has one.
    #[tactic(auto, using(crate::proofs::Swapping::takes_one))]
    fn take_place(&mut self, free: &mut usize) -> bool
        ensures swaps { SwapsPlaces self.old.runs free.old self.new.runs free.new }
        ensures turn { result ≡ self.new.runs }
        ensures session { self.new ≡ record self.old { runs = self.new.runs } }
    {
        if self.runs {
            return true;
        }
        if *free == 0 {
            return false;
        }
        *free -= 1;
        self.runs = true;
        true
    }

    /// Gives its place back, if it has one.
    pub fn leave_place(&mut self)
        ensures { self.new ≡ record self.old { runs = false } }
    {
        self.runs = false;
    }

    /// Whether its pushes into this server's site are under way, or were the last that it asked of it.
    pub fn pushes(&self) -> bool
        ensures { result ≡ awaits_pushes (asked_of_near self.now.near) }
    {
        self.near.is_pushed()
    }

    /// Takes what came, and asks what is next.
    pub fn step(&mut self, far: &mut Caller) -> Result<Course, SyncFault>
        ensures steps { IfOk result
            (MeetingSteps self.old.meeting self.old.near far.old self.new.meeting self.new.near far.new) }
        ensures fails { IfErr result
            (MeetingFails self.old.meeting self.old.near far.old self.new.meeting self.new.near far.new) }
        ensures client { self.new.client ≡ self.old.client }
        ensures runs { self.new.runs ≡ self.old.runs }
    {
        self.meeting.step(&mut self.near, far)
    }

    /// The number of questions that were asked of this server's site.
    pub fn questions(&self) -> u64
        ensures { result ≡ asked_near self.now.near }
    {
        self.near.questions()
    }

    /// Whether the site has something to do for it.
    pub fn is_busy(&self) -> bool
        ensures { result ≡ not (near_has_all self.now.near) }
    {
        !self.near.has_all()
    }

    /// Hands on what is to be asked of this server's site next. Where there is no memory for that, it goes later.
    pub fn hand_on(&mut self, talks: &mut Talks)
        ensures moves { MovesAtHand self.old.near self.new.near }
        ensures hands { HandsOn self.old.client self.old.near talks.old.hand self.new.near talks.new.hand }
        ensures session { self.new ≡ record self.old { near = self.new.near } }
        ensures talks { talks.new ≡ record talks.old { hand = talks.new.hand } }
        ensures deeds { TalksDeeds talks.old talks.new }
    {
        match self.near.go_on() {
            Ok(()) => talks.ask_own(self.client, &mut self.near.leaving),
            Err(_) => {}
        }
    }

    /// Takes the next reply of this server's site.
    pub fn hear(&mut self, reply: Reply) -> Result<(), Refusal>
        ensures hears { OnOk result (NearHears reply self.old.near self.new.near) }
        ensures same { OnErr result (self.new ≡ self.old) }
        ensures session { self.new ≡ record self.old { near = self.new.near } }
    {
        self.near.hear(reply)
    }

    /// What it did, once it is done.
    pub fn report(self) -> Report
        ensures { ReportsOn self.meeting result }
    {
        let OwnSession {
            client: _,
            near,
            meeting,
            runs: _,
        } = self;
        drop(near);
        meeting.report()
    }
}
