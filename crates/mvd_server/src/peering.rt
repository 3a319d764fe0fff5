//! A peer: when it is met, and the connection and the session with it, if there are any.
ghost use Rattle.std.specs.Prelude.{◌≡◌, ◌<◌, ◌≤◌, IsSomeAnd, None, Some, false, not, string_bytes, true};
ghost use Rattle.mvd_meet.specs.Times.{due_of, news_at};
ghost use Rattle.mvd_server.specs.PeerNews.{TellsIf, failed_text};
ghost use Rattle.mvd_server.specs.PeerSays.{PeerFails, PeerSays, said_by};
ghost use Rattle.mvd_server.specs.Peerings.{FailsMeeting, HearsNews, MayGoOn, MayTryAgain, TakesNoPlace, author_of};
ghost use Rattle.mvd_server.specs.Peerings.{has_place, is_resting};
ghost use Rattle.mvd_server.specs.Replied.{EndsIfLost, SessionHears, has_number};
ghost use Rattle.mvd_server.specs.Talking.{TalksDeeds};
ghost use Rattle.mvd_server.specs.declared.peer_news.Setting.{Setting};

use crate::crowd::Crowd;
use crate::own_session::OwnSession;
use crate::peer_counts::count_failed;
use crate::peer_link::PeerLink;
use crate::peer_news::{Setting, Untold, tell_failed};
use crate::timers::earlier;
use mio::event::Event;
use mio::{Registry, Token};
use mvd_dots::Refusal;
use mvd_meet::{Author, Met, Schedule};
use mvd_sync::Left;
use mvd_wire::{Items, Reply};
use std::net::{Net, SocketAddr};

/// The most questions that may have been asked over a connection on which another session begins. No session that asked
/// more is told to have failed where its connection was cut: a server takes 1,000,000.
pub(crate) const MOST_QUESTIONS: u64 = 500_000;

/// A peer. `place` is where it stands among the peers.
#[derive(Drop)]
pub(crate) struct Peering {
    pub place: usize,
    pub address: SocketAddr,
    token: Token,
    pub schedule: Schedule,
    pub link: Option<PeerLink>,
    pub session: Option<OwnSession>,
    /// The last session failed.
    pub is_failing: bool,
    /// The keys that the last session left which ended.
    pub left: Option<Items<Left>>,
    pub untold: Untold,
}

impl Peering {
    /// A peer that is met at once.
    pub fn new(place: usize, address: SocketAddr, token: Token, every: u32) -> Peering
        ensures due { due_of result.schedule ≡ 0 }
        ensures unmet { result.session ≡ None }
    {
        Peering {
            place,
            address,
            token,
            schedule: Schedule::new(every),
            link: None,
            session: None,
            is_failing: false,
            left: None,
            untold: Untold::new(),
        }
    }

    /// Whether its session has one of the places for those that go on.
    pub fn runs(&self) -> bool
        ensures { result ≡ has_place self.now.session }
    {
        match &self.session {
            Some(session) => session.runs,
            None => false,
        }
    }

    /// Whether its session wants a place, and has none.
    pub fn wants_place(&self) -> bool {
        match (&self.link, &self.session) {
            (Some(link), Some(session)) => {
                !session.runs && session.wants_place(&link.far, link.is_unread())
            }
            _ => false,
        }
    }

    /// When it is to be looked after, if nothing moves: where nothing is asked of it, once it is due. Where others wait
    /// for a place, its loan counts.
    #[tactic(auto, using(crate::proofs::Waking::earlier_due))]
    pub fn next_due(&self, waits: bool) -> Option<u64>
        ensures { is_resting self.now.link ≡ true → IsSomeAnd result (λ due. due ≤ due_of self.now.schedule) }
    {
        earlier(self.due_with(waits), self.untold.due())
    }

    /// When it is to be looked after, but for what is to be told.
    fn due_with(&self, waits: bool) -> Option<u64>
        ensures { is_resting self.now.link ≡ true → result ≡ Some (due_of self.now.schedule) }
    {
        match &self.link {
            Some(link) if !link.is_resting() => {
                if self.runs() && waits {
                    earlier(Some(link.loan.due()), link.due(true))
                } else {
                    link.due(self.runs())
                }
            }
            _ => Some(self.schedule.due()),
        }
    }

    /// Whether something is to be done at once.
    pub fn is_busy(&self, free: usize) -> bool {
        let Some(link) = &self.link else {
            return false;
        };
        if link.is_busy() {
            return true;
        }
        match &self.session {
            Some(session) => {
                let wants = session.wants_place(&link.far, link.is_unread());
                session.is_busy() || (wants && (session.runs || free > 0))
            }
            None => false,
        }
    }

    /// Notes what the system told of its socket, if it did. Whether it did.
    pub fn note(&mut self, event: &Event) -> bool
        ensures { self.new ≡ record self.old { link = self.new.link } }
    {
        if event.token() != self.token {
            return false;
        }
        if let Some(link) = &mut self.link {
            link.note(event);
        }
        true
    }

    /// Notes that something changed at this time.
    fn note_change(&mut self, author: Author, now: u64)
        ensures { self.new ≡ record self.old {
          schedule = record self.old.schedule { news = news_at author self.old.schedule.news now };
        } }
    {
        self.schedule.note(author, now);
    }

    /// Who made a change of this server's site: where its session pushes into that, perhaps it alone.
    fn author(&self) -> Author
        ensures { result ≡ author_of self.now.session }
    {
        match &self.session {
            Some(session) if session.pushes() => Author::Session,
            _ => Author::Others,
        }
    }

    /// Begins to connect, where it is due.
    pub fn connect<N: Net>(
        &mut self,
        rt: &N,
        registry: &Registry,
        setting: &Setting,
        crowd: &mut Crowd,
    )
        // Before that, nothing is done.
        ensures early { crowd.old.now < due_of self.old.schedule → self.new ≡ self.old }
        ensures places { TakesNoPlace self.old self.new }
        ensures deeds { TalksDeeds crowd.old.talks crowd.new.talks }
        ensures says { PeerSays (said_by self.old setting.now crowd.old) (said_by self.new setting.now crowd.new) }
    {
        if self.link.is_some() || self.schedule.due() > crowd.now || setting.is_ending {
            return;
        }
        let opened = PeerLink::open(
            rt,
            setting.alloc,
            registry,
            self.token,
            self.address,
            setting.idle,
            crowd.now,
        );
        match opened {
            Ok(link) => self.link = Some(link),
            Err(_) => self.fail(crowd, Refusal::ReadFailed),
        }
    }

    /// The connection failed, or the session over it. That is told, unless the session before failed too.
    pub fn fail(&mut self, crowd: &mut Crowd, refusal: Refusal)
        ensures over { (self.new.link ≡ None) × (self.new.session ≡ None) }
        ensures places { TakesNoPlace self.old self.new }
        ensures schedule { FailsMeeting crowd.old.now self.old self.new.schedule }
        ensures deeds { TalksDeeds crowd.old.talks crowd.new.talks }
        ensures says { (setting : Setting) → PeerFails refusal (said_by self.old setting crowd.old)
            (said_by self.new setting crowd.new) }
        // It is noted, unless it may be tried again.
        ensures noted { self.new.is_failing ≡ false → MayTryAgain self.old.link self.old.session }
    {
        let is_again = self.is_again(refusal);
        self.link = None;
        self.session = None;
        if is_again {
            return self.schedule.again();
        }
        self.schedule.end(Met::Failed, crowd.now);
        count_failed(&mut crowd.counts.peers, self.place);
        self.note_failed(refusal, &mut crowd.told);
    }

    /// Notes that a session failed. That is told, unless the one before failed too.
    fn note_failed(&mut self, refusal: Refusal, told: &mut String)
        ensures peering { self.new ≡ record self.old { is_failing = true } }
        ensures told { TellsIf (not self.old.is_failing) (failed_text self.old.address refusal)
            (string_bytes told.old) (string_bytes told.new) }
    {
        if !self.is_failing {
            tell_failed(self.address, refusal, told);
        }
        self.is_failing = true;
    }

    /// Whether it is tried again at once, over another connection: as many questions were asked as may be, or the
    /// connection was kept since the session before, and cut meanwhile.
    fn is_again(&self, refusal: Refusal) -> bool
        ensures { result ≡ true → MayTryAgain self.now.link self.now.session }
    {
        match (&self.link, &self.session) {
            (Some(link), Some(session)) => may_go_on(link, session, refusal),
            _ => false,
        }
    }

    /// Hands on what its session asks of this server's site.
    pub fn hand_on(&mut self, crowd: &mut Crowd)
        ensures places { TakesNoPlace self.old self.new }
        ensures schedule { self.new.schedule ≡ self.old.schedule }
        ensures deeds { TalksDeeds crowd.old.talks crowd.new.talks }
        ensures says { (setting : Setting) → PeerSays (said_by self.old setting crowd.old)
            (said_by self.new setting crowd.new) }
    {
        if let Some(session) = &mut self.session
            && session.is_busy()
        {
            session.hand_on(&mut crowd.talks);
        }
    }

    /// Whether this is the number of its session.
    pub fn asks_as(&self, client: u64) -> bool
        ensures { result ≡ has_number client self.now.session }
    {
        match &self.session {
            Some(session) => session.client == client,
            None => false,
        }
    }

    /// Notes whether something changed. Its session fails where a reply to it may be lost.
    pub fn look(&mut self, crowd: &mut Crowd, has_lost: bool, changed: bool)
        ensures lost { EndsIfLost has_lost self.old.session self.new.session }
        ensures places { TakesNoPlace self.old self.new }
        ensures news { HearsNews changed (author_of self.old.session) crowd.old.now self.old.schedule self.new.schedule }
        ensures deeds { TalksDeeds crowd.old.talks crowd.new.talks }
        ensures says { (setting : Setting) → PeerSays (said_by self.old setting crowd.old)
            (said_by self.new setting crowd.new) }
    {
        let now = crowd.now;
        let author = self.author();
        self.fail_if(crowd, has_lost);
        if !changed {
            return;
        }
        self.note_change(author, now);
    }

    /// Its session fails, where it waits for a reply that may be lost.
    #[tactic(auto, using(crate::proofs::Failing::keeps_news, crate::proofs::Replying::ends_now, crate::proofs::Replying::ends_kept, crate::proofs::Replying::ends_none, crate::proofs::Replying::ends_all))]
    fn fail_if(&mut self, crowd: &mut Crowd, has_lost: bool)
        ensures lost { EndsIfLost has_lost self.old.session self.new.session }
        ensures places { TakesNoPlace self.old self.new }
        ensures news { self.new.schedule.news ≡ self.old.schedule.news }
        ensures deeds { TalksDeeds crowd.old.talks crowd.new.talks }
        ensures says { (setting : Setting) → PeerSays (said_by self.old setting crowd.old)
            (said_by self.new setting crowd.new) }
    {
        if has_lost
            && let Some(session) = &self.session
            && session.is_busy()
        {
            self.fail(crowd, Refusal::Memory);
        }
    }

    /// Takes what this server's site told its session.
    #[tactic(auto, using(crate::proofs::Failing::keeps_news))]
    pub fn hear(&mut self, crowd: &mut Crowd, reply: Reply)
        ensures hears { SessionHears reply self.old.session self.new.session }
        ensures places { TakesNoPlace self.old self.new }
        ensures news { self.new.schedule.news ≡ self.old.schedule.news }
        ensures deeds { TalksDeeds crowd.old.talks crowd.new.talks }
        ensures says { (setting : Setting) → PeerSays (said_by self.old setting crowd.old)
            (said_by self.new setting crowd.new) }
    {
        let Some(session) = &mut self.session else {
            return;
        };
        match session.hear(reply) {
            Ok(()) => {}
            Err(refusal) => self.fail(crowd, refusal),
        }
    }
}

/// Whether a session that ended by this refusal may go on over another connection at once.
fn may_go_on(link: &PeerLink, session: &OwnSession, refusal: Refusal) -> bool
    ensures { result ≡ true → MayGoOn link.now session.now }
{
    let is_cut = matches!(
        refusal,
        Refusal::Truncated | Refusal::ReadFailed | Refusal::WriteFailed
    );
    let is_spent = link.far.questions() >= MOST_QUESTIONS || session.questions() >= MOST_QUESTIONS;
    if is_spent && (is_cut || refusal == Refusal::TooManyRequests) {
        return true;
    }
    is_cut && link.is_kept && !link.has_heard
}
