//! Those that wait for a change.
ghost use Rattle.std.specs.Prelude.{◌≡◌, ◌≤◌, IsTrue, option_copied, true};
ghost use Rattle.mvd_replica.specs.Replicas.{site_of};
ghost use Rattle.mvd_server.specs.News.{HasNews, IsNewsFor, asked_by, followed_by as followed_for, waiting_in};
ghost use Rattle.mvd_server.specs.Since.{IsLetStill};
ghost use Rattle.mvd_server.specs.Talking.{HasItsWrites, IsWaiting, TalksAt, TalksDeeds, talking_of, web_in};
ghost use Rattle.mvd_site.specs.Sites.{SiteValue};

use crate::changes::{News, followed_by};
use crate::metrics::Counts;
use crate::responding::{asks_changes, is_let_by, tell_pushed};
use crate::talks::Talks;
use mvd_dots::Refusal;
use mvd_http::{Followed, push_changes, push_not_waited};
use mvd_replica::Replica;
use sqlite::Alter;

impl Talks {
    /// Lets a client wait for a change. Where as many wait as may, or memory is refused for that, it is told that there
    /// is none yet, and that it did not wait.
    pub fn park(&mut self, number: u64, root: [u8; 32], due: u64, counts: &mut Counts)
        // Where as many wait as may, no further one does.
        ensures few { self.old.waits_max ≤ waiting_in self.old → waiting_in self.new ≤ waiting_in self.old }
        ensures deeds { TalksDeeds self.old self.new }
        ensures writes { HasItsWrites number (talking_of self.old) → HasItsWrites number (talking_of self.new) }
    {
        let count = self.parked.len();
        if count < self.waits_max
            && self.woken.reserve(count.saturating_add(1)).is_ok()
            && self.parked.add(number, root, due)
        {
            return;
        }
        self.tell_not_waited(number, root, counts);
    }

    /// Tells a client that knows this root that it does not wait for another.
    fn tell_not_waited(&mut self, number: u64, root: [u8; 32], counts: &mut Counts)
        ensures deeds { TalksDeeds self.old self.new }
        ensures parked { self.new.parked ≡ self.old.parked }
        ensures writes { HasItsWrites number (talking_of self.old) → HasItsWrites number (talking_of self.new) }
    {
        let mut body = String::new(self.alloc);
        let pushed = push_not_waited(self.alloc, &mut body, root);
        self.tell_waiting(number, pushed, body.as_str(), counts);
    }

    /// Tells a client that nothing changed since this root.
    fn tell_none(&mut self, number: u64, root: [u8; 32], counts: &mut Counts)
        ensures { TalksDeeds self.old self.new }
    {
        let mut body = String::new(self.alloc);
        let pushed = push_changes(self.alloc, &mut body, root, &[], false);
        self.tell_waiting(number, pushed, body.as_str(), counts);
    }

    /// Tells one whose request asks what changed.
    fn tell_waiting(
        &mut self,
        number: u64,
        told: Result<(), Refusal>,
        body: &str,
        counts: &mut Counts,
    )
        ensures deeds { (site : SiteValue) → IsNewsFor site (talking_of self.old) number told body.now →
            TalksAt site self.old self.new }
        ensures feed { (talking_of self.new).feed ≡ (talking_of self.old).feed }
        ensures parked { self.new.parked ≡ self.old.parked }
        ensures writes { HasItsWrites number (talking_of self.old) → HasItsWrites number (talking_of self.new) }
    {
        if !self.awaits_change(number) {
            return;
        }
        if let Some(web) = self.webs.get_mut(&number) {
            tell_pushed(self.alloc, web, told, body, counts);
        }
    }

    fn awaits_change(&self, number: u64) -> bool
        ensures { IsTrue result → IsWaiting (web_in (talking_of self.now) number) }
    {
        match self.webs.get(&number) {
            Some(web) => asks_changes(web),
            None => false,
        }
    }

    /// Tells those that wait what changed, if something did that they ask for.
    pub fn wake<S: Alter + Drop>(&mut self, replica: &Replica<S>, counts: &mut Counts)
        ensures { TalksAt (site_of replica.now) self.old self.new }
    {
        let since = self.parked.root();
        if self.changes.root() == since {
            return;
        }
        let mut news = News::new(self.alloc, since);
        let mut from = 0;
        for _ in 0..u64::MAX {
            let Some(number) = self.parked.first_from(from) else {
                break;
            };
            self.wake_one(replica, number, &mut news, counts);
            from = number.saturating_add(1);
        }
        self.follow();
    }

    /// Tells one that waits what changed, if something did that it asks for.
    fn wake_one<S: Alter + Drop>(
        &mut self,
        replica: &Replica<S>,
        number: u64,
        news: &mut News,
        counts: &mut Counts,
    )
        ensures deeds { HasNews (talking_of self.old).feed (site_of replica.now).states news.old →
            TalksAt (site_of replica.now) self.old self.new }
        ensures feed { (talking_of self.new).feed ≡ (talking_of self.old).feed }
        ensures news { HasNews (talking_of self.old).feed (site_of replica.now).states news.old →
            HasNews (talking_of self.old).feed (site_of replica.now).states news.new }
    {
        let Some(followed) = self.followed(number) else {
            return self.unpark(number);
        };
        if !self.is_let(number) {
            return;
        }
        match news.tell(&self.changes, replica, followed) {
            Ok(true) => self.tell_change(number, Ok(()), news.body.as_str(), counts),
            Ok(false) => {}
            Err(refusal) => self.tell_change(number, Err(refusal), "", counts),
        }
    }

    /// Of which changes a client asks.
    fn followed(&self, number: u64) -> Option<&Followed>
        ensures { option_copied result ≡ followed_for (web_in (talking_of self.now) number) }
    {
        followed_by(self.webs.get(&number)?.asked())
    }

    /// Whether a client that waits may be let in still.
    fn is_let(&self, number: u64) -> bool
        ensures { result ≡ true → IsLetStill (talking_of self.now).passes
            (asked_by (web_in (talking_of self.now) number)) }
    {
        let Some(passes) = &self.passes else {
            return true;
        };
        match self.webs.get(&number) {
            Some(web) => is_let_by(passes, web.asked()),
            None => false,
        }
    }

    fn unpark(&mut self, number: u64)
        ensures { talking_of self.new ≡ talking_of self.old }
    {
        self.parked.remove(number);
    }

    /// Those that wait on know the root now.
    fn follow(&mut self)
        ensures { talking_of self.new ≡ talking_of self.old }
    {
        self.parked.follow(self.changes.root());
    }

    /// Tells one that waits what changed. It waits no more.
    fn tell_change(
        &mut self,
        number: u64,
        told: Result<(), Refusal>,
        body: &str,
        counts: &mut Counts,
    )
        ensures deeds { (site : SiteValue) → IsNewsFor site (talking_of self.old) number told body.now →
            TalksAt site self.old self.new }
        ensures feed { (talking_of self.new).feed ≡ (talking_of self.old).feed }
    {
        self.unpark(number);
        self.note_woken(number);
        self.tell_waiting(number, told, body, counts);
    }

    /// Tells those that have waited long enough that nothing changed.
    pub fn end_waits(&mut self, now: u64, counts: &mut Counts)
        ensures { TalksDeeds self.old self.new }
    {
        for _ in 0..u64::MAX {
            let Some(number) = self.parked.take_due(now) else {
                return;
            };
            self.end_wait(number, counts);
        }
    }

    /// Tells one that has waited long enough.
    fn end_wait(&mut self, number: u64, counts: &mut Counts)
        ensures { TalksDeeds self.old self.new }
    {
        self.note_woken(number);
        if let Some(root) = self.parked.root() {
            self.tell_none(number, root, counts);
        }
    }

    /// There is room for each that waits.
    fn note_woken(&mut self, number: u64)
        ensures { talking_of self.new ≡ talking_of self.old }
    {
        let _ = self.woken.push(number);
    }

    /// A client that waits for a change, if it does, is told soon that there is none.
    pub fn hurry(&mut self, number: u64)
        ensures { talking_of self.new ≡ talking_of self.old }
    {
        self.parked.hurry(number);
    }

    /// When the first that waits for a change has waited long enough.
    pub fn next_due(&self) -> Option<u64> {
        self.parked.next_due()
    }
}
