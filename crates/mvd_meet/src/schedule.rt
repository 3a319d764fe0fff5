//! When a peer is met. All times are in milliseconds, and given by whoever has a clock.
ghost use Rattle.std.specs.Prelude.{◌≡◌, ◌+◌, ◌*◌, ◌-◌, ◌^◌, None, Some, min};
ghost use Rattle.mvd_meet.specs.Times.{due_of, news_at, pause_after};

use crate::pace::{Met, Pace};

/// The milliseconds after a change at which a peer is met, and those after one that a session with that peer made.
const SETTLE: u64 = 5;

const SETTLE_OWN: u64 = 1_000;

/// Who made a change: others than the session with this peer, or perhaps that session alone.
#[derive(Clone, Copy)]
pub enum Author {
    Others,
    Session,
}

/// When a peer is met: at once at first, then so many seconds after a session, and soon after a change.
#[derive(Clone, Copy)]
pub struct Schedule {
    pub every: u32,
    pub pace: Pace,
    /// When it is met without a change.
    pub next: u64,
    /// When it is met for a change that came since the last session began.
    pub news: Option<u64>,
}

impl Schedule {
    /// A peer that is met at once, and then as many seconds after each session.
    pub fn new(every: u32) -> Schedule
        ensures now { due_of result ≡ 0 }
        ensures quiet { result.news ≡ None }
        ensures every { result.every ≡ every }
    {
        Schedule {
            every,
            pace: Pace::new(),
            next: 0,
            news: None,
        }
    }

    /// When it is due. After a fault no change brings that forward.
    pub fn due(&self) -> u64
        ensures { result ≡ due_of self.now }
    {
        match (self.news, self.pace.last) {
            (Some(news), Met::Well | Met::Stuck) => self.next.min(news),
            (Some(_), Met::Failed) | (None, _) => self.next,
        }
    }

    /// Something changed at this time.
    pub fn note(&mut self, author: Author, now: u64)
        ensures { self.new ≡ record self.old { news = news_at author self.old.news now } }
    {
        let settle = match author {
            Author::Others => SETTLE,
            Author::Session => SETTLE_OWN,
        };
        let due = now.saturating_add(settle);
        self.news = match self.news {
            Some(news) => Some(news.min(due)),
            None => Some(due),
        };
    }

    /// A session begins. It takes what changed before.
    pub fn begin(&mut self)
        ensures { self.new ≡ record self.old { news = None } }
    {
        self.news = None;
    }

    /// A session ended so at this time.
    pub fn end(&mut self, ended: Met, now: u64)
        ensures next { self.new.next ≡ min (now + 1000 * pause_after ended self.old.pace self.old.every) (2 ^ 64 - 1) }
        ensures pace { self.new.pace ≡ record { last = ended; pause = pause_after ended self.old.pace self.old.every } }
        ensures news { self.new.news ≡ self.old.news }
        ensures every { self.new.every ≡ self.old.every }
    {
        let pause = self.pace.after(ended, self.every);
        self.next = now.saturating_add(u64::from(pause) * 1_000);
    }

    /// It is tried again at once, over another connection.
    pub fn again(&mut self)
        ensures { self.new ≡ record self.old { next = 0 } }
    {
        self.next = 0;
    }
}
