//! What goes on with a peer, step by step, without waiting.
ghost use Rattle.std.specs.Prelude.{◌≡◌, ◌<◌, IfOk, IsSome, None, OnErr, OnOk, Some, false, string_bytes, true};
ghost use Rattle.mvd_meet.specs.Times.{due_of, ended_of};
ghost use Rattle.mvd_server.specs.PeerLinks.{LetsIn, ShowsIf};
ghost use Rattle.mvd_server.specs.PeerNews.{TellsIf, again_text, noted_unless};
ghost use Rattle.mvd_server.specs.PeerSays.{IsDone, PeerGoes, PeerSays, PeerWent, said_by, sitting, sitting_of};
ghost use Rattle.mvd_server.specs.Peerings.{BeginsMeeting, EndsMeeting, HoldsBack, IsLentAt, StaysWithout, TakesFree};
ghost use Rattle.mvd_server.specs.Peerings.{TakesNoPlace};
ghost use Rattle.mvd_server.specs.Talking.{TalksDeeds};
ghost use Rattle.mvd_server.specs.declared.peer_news.Setting.{Setting};

use crate::crowd::Crowd;
use crate::own_session::OwnSession;
use crate::peer_counts::count_done;
use crate::peer_link::{PeerLink, Stage};
use crate::peer_news::{Setting, tell_again, tell_left};
use crate::peer_turn::{Went, has_turn_in, refusal_in, step_of};
use crate::peering::{MOST_QUESTIONS, Peering};
use mvd_dots::Refusal;
use mvd_meet::Met;
use mvd_sync::Report;

/// The most steps that are taken of a session before others have their turn.
const STEPS: usize = 16;

impl Peering {
    /// Goes on as far as can be without waiting. At most `free` sessions more go on past their first question.
    pub fn go_on(&mut self, setting: &mut Setting, crowd: &mut Crowd, free: &mut usize)
        ensures free { TakesFree self.old free.old self.new free.new }
        ensures deeds { TalksDeeds crowd.old.talks crowd.new.talks }
        // Of its sessions nothing is told but what they came to.
        ensures says { PeerSays (said_by self.old setting.old crowd.old) (said_by self.new setting.new crowd.new) }
    {
        for _turn in 0..STEPS {
            match self.step(setting, crowd, free) {
                Ok(true) => {}
                Ok(false) => return,
                Err(refusal) => return self.fail(crowd, refusal),
            }
        }
    }

    /// One step. Whether another may follow at once.
    fn step(
        &mut self,
        setting: &mut Setting,
        crowd: &mut Crowd,
        free: &mut usize,
    ) -> Result<bool, Refusal>
        ensures free { TakesFree self.old free.old self.new free.new }
        ensures deeds { TalksDeeds crowd.old.talks crowd.new.talks }
        ensures says { PeerGoes result (said_by self.old setting.old crowd.old)
            (said_by self.new setting.new crowd.new) }
    {
        if self.move_on(setting, crowd, free)? {
            return Ok(true);
        }
        self.give_up(crowd.now)
    }

    /// What is next at its stage. Whether another step may follow at once.
    fn move_on(
        &mut self,
        setting: &mut Setting,
        crowd: &mut Crowd,
        free: &mut usize,
    ) -> Result<bool, Refusal>
        ensures free { TakesFree self.old free.old self.new free.new }
        ensures deeds { TalksDeeds crowd.old.talks crowd.new.talks }
        ensures says { PeerGoes result (said_by self.old setting.old crowd.old)
            (said_by self.new setting.new crowd.new) }
    {
        let Some(link) = &mut self.link else {
            return Ok(false);
        };
        match link.stage {
            Stage::Connects => connects(link, setting, crowd.now),
            Stage::Greets => greets(link, setting, crowd.now),
            Stage::Rests => self.rests(setting, crowd),
            Stage::Meets => self.meets(setting, crowd, free),
            Stage::Parts => Ok(self.parts(setting, crowd.now)),
        }
    }

    /// A peer is given up of which no byte came for too long. One that does not answer a Bye is let go.
    fn give_up(&mut self, now: u64) -> Result<bool, Refusal>
        ensures { self.new ≡ record self.old { link = self.new.link } }
    {
        let Some(link) = &mut self.link else {
            return Ok(false);
        };
        if !link.is_late(now) {
            return Ok(false);
        }
        if link.stage != Stage::Parts {
            // It was not cut since the session before: it is there, and says nothing.
            link.is_kept = false;
            return Err(Refusal::ReadFailed);
        }
        self.link = None;
        Ok(false)
    }

    /// A session begins, where it is due and the connection is still there. Over a new one it begins in any case: what
    /// came, or that it ended, is then told as its fault.
    fn rests(&mut self, setting: &mut Setting, crowd: &mut Crowd) -> Result<bool, Refusal>
        // Before that, none does.
        ensures early { crowd.old.now < due_of self.old.schedule → self.new.session ≡ self.old.session }
        ensures places { TakesNoPlace self.old self.new }
        ensures deeds { TalksDeeds crowd.old.talks crowd.new.talks }
        ensures says { PeerGoes result (said_by self.old setting.old crowd.old)
            (said_by self.new setting.new crowd.new) }
    {
        let Some(link) = &mut self.link else {
            return Ok(false);
        };
        if link.is_stale(&mut setting.piece) {
            self.link = None;
            return Ok(false);
        }
        if self.schedule.due() > crowd.now {
            return Ok(false);
        }
        if link.far.questions() >= MOST_QUESTIONS {
            return Ok(self.part(crowd.now));
        }
        link.stage = Stage::Meets;
        link.has_heard = false;
        self.begin(setting, crowd)?;
        self.ask(setting, crowd)
    }

    /// A session begins. It takes what changed before.
    #[tactic(auto, using(crate::proofs::Placing::fresh_place))]
    fn begin(&mut self, setting: &Setting, crowd: &mut Crowd) -> Result<(), Refusal>
        ensures begins { OnOk result (BeginsMeeting setting.now.number self.old self.new) }
        ensures fails { OnErr result (self.new ≡ self.old) }
        ensures rest { self.new ≡ record self.old { session = self.new.session; schedule = self.new.schedule } }
        ensures places { TakesNoPlace self.old self.new }
        ensures crowd { crowd.new ≡ record crowd.old { talks = crowd.new.talks } }
        ensures deeds { TalksDeeds crowd.old.talks crowd.new.talks }
    {
        match OwnSession::begin(setting.alloc, &mut crowd.talks, setting.number) {
            Ok(Some(session)) => self.session = Some(session),
            Ok(None) => return Err(Refusal::Memory),
            Err(fault) => return Err(refusal_in(fault)),
        }
        self.schedule.begin();
        Ok(())
    }

    /// What came is taken, once all came, and what is next is asked, where there is a place for the session.
    fn meets(
        &mut self,
        setting: &mut Setting,
        crowd: &mut Crowd,
        free: &mut usize,
    ) -> Result<bool, Refusal>
        ensures takes { TakesFree self.old free.old self.new free.new }
        ensures stays { StaysWithout self.old free.old self.new }
        ensures deeds { TalksDeeds crowd.old.talks crowd.new.talks }
        ensures says { PeerGoes result (said_by self.old setting.old crowd.old)
            (said_by self.new setting.new crowd.new) }
    {
        let Some(link) = &mut self.link else {
            return Ok(false);
        };
        link.move_bytes(&mut setting.piece, crowd.now)?;
        if !has_turn_in(&mut self.session, link, crowd.now, free) {
            return Ok(false);
        }
        self.ask(setting, crowd)
    }

    /// Its session gives up its place, if it has one, where the loan is over and others wait, or where no byte moved
    /// for a while. Nothing is read of the peer until it has one again.
    #[tactic(auto, using(crate::proofs::Placing::gone, crate::proofs::Placing::unlinked, crate::proofs::Placing::without, crate::proofs::Placing::is_lent))]
    pub fn give_back(&mut self, waits: bool, now: u64)
        ensures places { TakesNoPlace self.old self.new }
        ensures lends { waits ≡ true → IsLentAt now self.new }
        ensures held { HoldsBack self.old self.new }
        ensures rest { self.new ≡ record self.old { link = self.new.link; session = self.new.session } }
        ensures sits { sitting_of self.new.session ≡ sitting_of self.old.session }
    {
        let Some(link) = &mut self.link else {
            return;
        };
        let Some(session) = &mut self.session else {
            return;
        };
        if !session.runs || !link.is_over(waits, now) {
            return;
        }
        session.leave_place();
        link.is_held = true;
    }

    /// Asks what is next, or ends the session where it is done.
    fn ask(&mut self, setting: &mut Setting, crowd: &mut Crowd) -> Result<bool, Refusal>
        ensures places { TakesNoPlace self.old self.new }
        ensures deeds { TalksDeeds crowd.old.talks crowd.new.talks }
        ensures says { PeerGoes result (said_by self.old setting.old crowd.old)
            (said_by self.new setting.new crowd.new) }
        // No session fails that is done.
        ensures stays { OnErr result (IsSome self.old.session → IsSome self.new.session) }
    {
        if setting.is_ending {
            return Ok(self.leave(crowd));
        }
        match self.ask_next(crowd.now)? {
            Went::Waits => Ok(false),
            Went::Asks => Ok(true),
            Went::Done(session) => Ok(self.done(setting, crowd, session)),
        }
    }

    /// The session ends where it is, between two of its windows.
    fn leave(&mut self, crowd: &mut Crowd) -> bool
        ensures rest { self.new ≡ record self.old { link = self.new.link; session = None } }
        ensures places { TakesNoPlace self.old self.new }
        ensures crowd { crowd.new ≡ record crowd.old { talks = crowd.new.talks } }
        ensures deeds { TalksDeeds crowd.old.talks crowd.new.talks }
    {
        self.session = None;
        self.part(crowd.now)
    }

    /// A step of the session, if there is one.
    fn ask_next(&mut self, now: u64) -> Result<Went, Refusal>
        ensures places { TakesNoPlace self.old self.new }
        ensures rest { self.new ≡ record self.old { link = self.new.link; session = self.new.session } }
        ensures steps { IfOk result (PeerWent self.old self.new) }
        ensures stays { OnErr result (IsSome self.old.session → IsSome self.new.session) }
    {
        let Some(link) = &mut self.link else {
            return Ok(Went::Waits);
        };
        link.moved = now;
        step_of(&mut self.session, link)
    }

    /// A session is done: that is told, and the connection rests, or ends.
    fn done(&mut self, setting: &mut Setting, crowd: &mut Crowd, session: OwnSession) -> bool
        requires { IsDone (sitting session) }
        ensures places { TakesNoPlace self.old self.new }
        ensures deeds { TalksDeeds crowd.old.talks crowd.new.talks }
        // What is told is what its machine reports.
        ensures says { self.old.session ≡ None →
            PeerSays (record (said_by self.old setting.old crowd.old) { session = Some (sitting session) })
            (said_by self.new setting.new crowd.new) }
    {
        let report = session.report();
        self.note_again(&mut crowd.told);
        self.note_exchanged(setting, &report);
        self.tell(crowd);
        self.note_done(setting, crowd, report);
        self.keep();
        if setting.stays {
            return false;
        }
        self.part(crowd.now)
    }

    /// Over its connection nothing is asked from now on.
    fn keep(&mut self)
        ensures { self.new ≡ record self.old { link = self.new.link } }
    {
        if let Some(link) = &mut self.link {
            link.is_kept = true;
            link.stage = Stage::Rests;
        }
    }

    /// Notes what a session exchanged, where that is told.
    fn note_exchanged(&mut self, setting: &Setting, report: &Report)
        ensures { self.new ≡ record self.old {
          untold = noted_unless setting.now.is_quiet report.now self.old.untold;
        } }
    {
        if !setting.is_quiet {
            self.untold.note(report);
        }
    }

    /// Tells what the sessions exchanged, once that may be told.
    pub fn tell(&mut self, crowd: &mut Crowd)
        ensures peering { self.new ≡ record self.old { untold = self.new.untold } }
        ensures talks { crowd.new.talks ≡ crowd.old.talks }
        ensures says { (setting : Setting) → PeerSays (said_by self.old setting crowd.old)
            (said_by self.new setting crowd.new) }
    {
        self.untold.tell(self.address, crowd.now, &mut crowd.told);
    }

    /// Notes that a session is done. Where the one before failed, that is told.
    fn note_again(&mut self, told: &mut String)
        ensures peering { self.new ≡ record self.old { is_failing = false } }
        ensures told { TellsIf self.old.is_failing (again_text self.old.address)
            (string_bytes told.old) (string_bytes told.new) }
    {
        if self.is_failing {
            tell_again(self.address, told);
        }
        self.is_failing = false;
    }

    /// Notes how a session ended that is done, and tells which keys were left, but for those that the session before
    /// left.
    fn note_done(&mut self, setting: &mut Setting, crowd: &mut Crowd, report: Report)
        ensures peering { self.new ≡ record self.old { schedule = self.new.schedule; left = self.new.left } }
        ensures ends { EndsMeeting (ended_of report) crowd.old.now self.old.schedule self.new.schedule }
        ensures crowd { crowd.new ≡ record crowd.old { counts = crowd.new.counts } }
        ensures setting { setting.new ≡ record setting.old { errors = setting.new.errors } }
    {
        self.schedule.end(Met::with(&report), crowd.now);
        count_done(&mut crowd.counts.peers, self.place, &report, crowd.now);
        tell_left(
            self.address,
            &self.left,
            &report.first_refused,
            &mut setting.errors,
        );
        self.left = Some(report.first_refused);
    }

    /// Says Bye. What came of a window and was not told is given up.
    fn part(&mut self, now: u64) -> bool
        ensures { self.new ≡ record self.old { link = self.new.link } }
    {
        let Some(link) = &mut self.link else {
            return false;
        };
        let _ = link.far.tell();
        match link.far.part() {
            Ok(()) => {
                link.stage = Stage::Parts;
                link.moved = now;
                true
            }
            Err(_) => {
                self.link = None;
                false
            }
        }
    }

    /// The connection ends once the Bye is answered. What else comes does not put that off.
    fn parts(&mut self, setting: &mut Setting, now: u64) -> bool
        ensures peering { self.new ≡ record self.old { link = self.new.link } }
        ensures setting { setting.new ≡ record setting.old { piece = setting.new.piece } }
    {
        let Some(link) = &mut self.link else {
            return false;
        };
        let since = link.moved;
        let moved = link.move_bytes(&mut setting.piece, now);
        link.moved = since;
        if moved.is_err() || link.far.has_all() {
            self.link = None;
        }
        false
    }
}

/// The token is shown once it is connected, if there is one.
fn connects(link: &mut PeerLink, setting: &Setting, now: u64) -> Result<bool, Refusal>
    ensures { IfOk result (λ is. ShowsIf is setting.now.token link.old link.new) }
{
    if !link.is_connected()? {
        return Ok(false);
    }
    link.moved = now;
    link.stage = match &setting.token {
        Some(token) => {
            link.far.greet(token)?;
            Stage::Greets
        }
        None => Stage::Rests,
    };
    Ok(true)
}

/// The token is answered by Done.
fn greets(link: &mut PeerLink, setting: &mut Setting, now: u64) -> Result<bool, Refusal>
    ensures lets { IfOk result (λ is. LetsIn is link.old link.new) }
    ensures setting { setting.new ≡ record setting.old { piece = setting.new.piece } }
{
    link.move_bytes(&mut setting.piece, now)?;
    if !link.far.has_all() {
        return Ok(false);
    }
    link.far.is_answered()?;
    link.stage = Stage::Rests;
    Ok(true)
}
