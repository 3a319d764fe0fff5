//! What the clients say, in frames or over HTTP.
mod comings;
mod meeting;
pub(crate) mod own;
mod talk_bytes;
mod waking;

ghost use Rattle.std.specs.Prelude.{◌≡◌, ◌<◌, [], IfOk, OnErr, OnOk, Some, false, length, true};
ghost use Rattle.mvd_http.specs.Guard.{named_by};
ghost use Rattle.mvd_replica.specs.Replicas.{site_of};
ghost use Rattle.mvd_server.specs.Rounds.{HasRound};
ghost use Rattle.mvd_server.specs.Errands.{batch_in};
ghost use Rattle.mvd_server.specs.Replied.{KeepsReplies};
ghost use Rattle.mvd_server.specs.Talking.{Deeds, HandsWrites, HasItsWrites, KeepsBatch, LacksMemory, MayBeginWrites};
ghost use Rattle.mvd_server.specs.Talking.{TakesReply, Talking, TalksAt, TalksDeeds, TellsAtOnce, TellsFirst};
ghost use Rattle.mvd_server.specs.Talking.{new_talking, talking_of, web_in};
ghost use Rattle.mvd_server.specs.declared.batch.Batch.{Batch};
ghost use Rattle.mvd_web.specs.declared.web_connection.WebConnection.{WebConnection};

use crate::batch::Batch;
use crate::gate::{Rest, answer_writes, ask};
use crate::metrics::Counts;
use crate::parked::Parked;
use crate::responding::{refuse, tell_reply};
use crate::talks::own::{FIRST_OWN, Heard, is_own};
use mvd_conn::Passes;
use mvd_dots::Refusal;
use mvd_host::{AtHand, FIRST_AT_HAND, Feed, Host};
use mvd_http::Names;
use mvd_replica::Replica;
use mvd_web::WebConnection;
use mvd_wire::Reply;
use sqlite::Alter;
use std::alloc::{AllocError, Global};
use std::collections::BTreeMap;
use std::hash::RandomState;

/// What a client speaks.
#[derive(Clone, Copy)]
pub(crate) enum Kind {
    Frames,
    Http,
}

/// The clients' connections: those of frames in the host, and those over HTTP in `webs`. What these ask of the site, and
/// are told, is at hand, and so it is of this server's own sessions.
#[derive(Drop)]
pub(crate) struct Talks {
    pub host: Host,
    /// Who may come in: whoever shows the token of one of these, or everybody.
    passes: Option<Passes>,
    /// By which names it is asked, and of which origins a page may ask.
    names: Names,
    hand: AtHand,
    webs: BTreeMap<u64, WebConnection>,
    /// The number of the next client over HTTP, or of the next one that is turned away.
    next: u64,
    /// The writes of those of whose request some are not answered.
    batches: BTreeMap<u64, Batch>,
    changes: Feed,
    /// Those that wait for a change, and those of them that were told of late.
    parked: Parked,
    /// The most that may wait so.
    waits_max: usize,
    pub woken: Vec<u64>,
    /// A client asked that the server ends.
    pub is_ending: bool,
    /// The number of the next session of this server's own with a peer.
    pub sessions: u64,
    heard: Heard,
    alloc: Global,
    keys: RandomState,
}

impl Talks {
    /// Nobody's. As many clients may wait for a change.
    pub fn new(
        alloc: Global,
        keys: RandomState,
        passes: Option<Passes>,
        names: Names,
        waits_max: usize,
    ) -> Talks
        ensures begins { talking_of result ≡ new_talking passes (named_by names) }
        ensures most { result.waits_max ≡ waits_max }
    {
        Talks {
            host: Host::new(alloc),
            passes,
            names,
            hand: AtHand::new(alloc),
            webs: BTreeMap::new(alloc),
            next: FIRST_AT_HAND,
            batches: BTreeMap::new(alloc),
            changes: Feed::new(alloc),
            parked: Parked::new(alloc),
            waits_max,
            woken: Vec::new(alloc),
            is_ending: false,
            sessions: FIRST_OWN,
            heard: Heard::new(alloc),
            alloc,
            keys,
        }
    }

    /// Takes requests of some clients, answers them together, and queues what each is told, and what those are told
    /// that wait for a change. Whether there may be more of them at once: behind changes the replies leave first, and
    /// where something has to wait for another round.
    pub fn round<S: Alter + Drop>(
        &mut self,
        replica: &mut Replica<S>,
        ready: &[u64],
        counts: &mut Counts,
        now: u64,
    ) -> bool
        // Nothing but the host's round changes the replica.
        ensures round { HasRound (talking_of self.old) (talking_of self.new) replica.old replica.new }
    {
        counts.open = self.clients();
        self.changes.start(replica);
        for number in ready {
            self.take_in(replica, *number, counts, now);
        }
        // The round before has left nothing to tell.
        self.tell_all(counts);
        self.meet_all(ready);
        // Where memory was refused for a frame, there may be more, but not at once.
        let changes = counts.tally.changes();
        let round = self.host.round(
            replica,
            ready,
            &mut self.hand,
            &mut counts.tally,
            &mut self.changes,
        );
        let more = matches!(round, Ok(true));
        if more || round.is_err() {
            counts.rounds = counts.rounds.saturating_add(1);
        }
        self.tell_all(counts);
        self.wake(replica, counts);
        more & (counts.tally.changes() == changes) & !self.hand.has_waiting()
    }

    /// Takes the next request of a client over HTTP, or asks what its writes ask, where that was not done.
    fn take_in<S: Alter + Drop>(
        &mut self,
        replica: &Replica<S>,
        number: u64,
        counts: &mut Counts,
        now: u64,
    )
        ensures deeds { TalksAt (site_of replica.now) self.old self.new }
        ensures begins { HasItsWrites number (talking_of self.old) → HasItsWrites number (talking_of self.new) }
    {
        if self.batches.contains_key(&number) {
            return self.hand_on_writes(number);
        }
        let Some(web) = self.webs.get_mut(&number) else {
            return;
        };
        let rest = ask(
            self.alloc,
            self.passes.as_ref(),
            &self.names,
            &mut self.hand,
            web,
            number,
            replica,
            &self.changes,
            counts,
        );
        match rest {
            Rest::Nothing => {}
            Rest::Stops => self.is_ending = true,
            Rest::Writes(batch) => self.begin_writes(batch, number, counts),
            Rest::Waits(root, wait) => {
                let due = now.saturating_add(u64::from(wait).saturating_mul(1_000));
                self.park(number, root, due, counts);
            }
        }
    }

    /// Asks what the writes of a client ask, where that was not done.
    fn hand_on_writes(&mut self, number: u64)
        ensures deeds { TalksDeeds self.old self.new }
        ensures hands { (batch : Batch) → batch_in (talking_of self.old).batches number ≡ Some batch →
            HandsWrites number batch (talking_of self.old) (talking_of self.new) }
    {
        if let Some(batch) = self.batches.get_mut(&number) {
            batch.hand_on(&mut self.hand, number);
        }
    }

    /// Begins with the writes that a client's request asks for. Where memory is refused to keep them, none is asked.
    fn begin_writes(&mut self, batch: Batch, number: u64, counts: &mut Counts)
        ensures deeds { MayBeginWrites number batch (talking_of self.old) → TalksDeeds self.old self.new }
        // Where each write was refused at once, or there is none, the client is told all lines.
        ensures told { MayBeginWrites number batch (talking_of self.old) →
            TellsAtOnce number batch (talking_of self.old) (talking_of self.new) }
        ensures begins { MayBeginWrites number batch (talking_of self.old) → HasItsWrites number (talking_of self.new) }
    {
        match self.keep_writes(batch, number) {
            Ok(()) => {
                self.hand_on_writes(number);
                self.tell_writes(number, counts);
            }
            Err(_) => self.lack_memory(number, counts),
        }
    }

    fn keep_writes(&mut self, batch: Batch, number: u64) -> Result<(), AllocError>
        ensures keeps { OnOk result (KeepsBatch number batch (talking_of self.old) (talking_of self.new)) }
        ensures same { OnErr result (talking_of self.new ≡ talking_of self.old) }
    {
        drop(self.batches.insert(number, batch)?);
        Ok(())
    }

    fn lack_memory(&mut self, number: u64, counts: &mut Counts)
        ensures { LacksMemory number (talking_of self.old) (talking_of self.new) }
    {
        if let Some(web) = self.webs.get_mut(&number) {
            refuse(self.alloc, web, counts, Refusal::Memory);
        }
    }

    /// Queues what clients over HTTP are told of the replies that are left, and keeps what the sessions are told.
    fn tell_all(&mut self, counts: &mut Counts)
        ensures deeds { TalksDeeds self.old self.new }
        ensures none { self.new.hand.left ≡ [] }
        ensures heard { KeepsReplies self.old self.new }
    {
        'telling: while self.tell_next(counts) {}
    }

    /// Tells the first reply that is left. It is `false` where there is none.
    fn tell_next(&mut self, counts: &mut Counts) -> bool
        ensures deeds { TalksDeeds self.old self.new }
        ensures fewer { result ≡ true → length self.new.hand.left < length self.old.hand.left }
        ensures none { result ≡ false → self.new.hand.left ≡ [] }
        ensures heard { KeepsReplies self.old self.new }
    {
        let Some((number, reply)) = self.hand.next() else {
            return false;
        };
        if is_own(number) {
            self.heard.push(number, reply);
            return true;
        }
        self.tell(number, &reply, counts);
        true
    }

    /// Tells a client over HTTP the reply to what it asked. Where the client has gone, nobody is told.
    fn tell(&mut self, number: u64, reply: &Reply, counts: &mut Counts)
        ensures deeds { (before : Talking) → TakesReply number reply.now before (talking_of self.old) →
            Deeds before (talking_of self.new) }
        ensures hand { self.new.hand ≡ self.old.hand }
        ensures heard { self.new.heard ≡ self.old.heard }
    {
        let Some(web) = self.webs.get_mut(&number) else {
            return;
        };
        let Some(batch) = self.batches.get_mut(&number) else {
            return tell_reply(self.alloc, web, reply, counts);
        };
        answer_writes(web, batch, Some(reply), counts);
        if web.asked().is_none() {
            drop(self.batches.remove(&number));
        }
    }

    /// Tells a client the lines of its first writes, where these were refused at once.
    fn tell_writes(&mut self, number: u64, counts: &mut Counts)
        ensures deeds { TalksDeeds self.old self.new }
        ensures told { (web : WebConnection) (batch : Batch) → web_in (talking_of self.old) number ≡ Some web →
            batch_in (talking_of self.old).batches number ≡ Some batch →
            TellsFirst number web batch (talking_of self.old) (talking_of self.new) }
    {
        let Some(web) = self.webs.get_mut(&number) else {
            return;
        };
        let Some(batch) = self.batches.get_mut(&number) else {
            return;
        };
        answer_writes(web, batch, None, counts);
        if web.asked().is_none() {
            drop(self.batches.remove(&number));
        }
    }

    /// Whether a client waits for the answer to a request over HTTP, which may be a change.
    pub fn awaits_answer(&self, number: u64) -> bool {
        match self.webs.get(&number) {
            Some(web) => web.asked().is_some(),
            None => false,
        }
    }
}
