//! The clients' connections, and what is counted and told of them.
ghost use Rattle.std.specs.Prelude.{◌≡◌, ◌/◌, IfOk};
ghost use Rattle.mvd_server.specs.Rounds.{BeginsServing, HasRound};
ghost use Rattle.mvd_server.specs.Talking.{talking_of};
ghost use Rattle.mvd_server.specs.TokenFiles.{names_asked, passes_asked};

use crate::client::PIECE;
use crate::metrics::Counts;
use crate::peer_list::Peers;
use crate::talks::Talks;
use crate::terms::Terms;
use mvd_replica::Replica;
use sqlite::Alter;
use std::alloc::{AllocError, Global};
use std::hash::RandomState;
use std::time::{Clock, Instant};

/// The most sockets that may be open at once beside those that are served: of clients that are told that there is no
/// place, and of those that take their last reply. Further ones wait in the listener's queue.
pub(crate) const SPARE: usize = 64;

/// The most milliseconds that what goes on has to end, where the server is to end.
pub(crate) const LAST: u64 = 10_000;

/// The clients' connections, and what is told of those that ended.
#[derive(Drop)]
pub(crate) struct Crowd {
    pub talks: Talks,
    pub counts: Counts,
    /// The most clients that may come in all, and the most that are served at once.
    most: u64,
    pub places: usize,
    /// The time, in milliseconds since the server's start.
    pub now: u64,
    /// Until when all that came is heard of.
    pub heard: u64,
    /// For as many milliseconds no byte need move.
    pub idle: u64,
    /// A connection that ended well is not told.
    pub is_quiet: bool,
    pub told: String,
}

impl Crowd {
    #[tactic(auto, using(crate::proofs::Rounds::begins_serving))]
    pub fn new(
        alloc: Global,
        keys: RandomState,
        terms: Terms<'_>,
        start: Instant,
    ) -> Result<Crowd, AllocError>
        ensures begins { IfOk result (λ crowd.
            BeginsServing (passes_asked terms.entry) (names_asked terms.entry) crowd.talks) }
        ensures most { IfOk result (λ crowd. crowd.talks.waits_max ≡ terms.entry.clients / 2) }
    {
        let told = String::with_capacity(alloc, PIECE)?;
        let peers = Peers::counts(alloc, terms)?;
        let names = terms.names(alloc)?;
        let passes = terms.passes(alloc)?;
        let talks = Talks::new(alloc, keys, passes, names, terms.waits_max());
        Ok(Crowd {
            talks,
            counts: Counts::new(alloc, peers, start),
            most: terms.conns.map_or(u64::MAX, u64::from),
            places: terms.places(),
            now: 0,
            heard: 0,
            idle: u64::from(terms.idle).saturating_mul(1_000),
            is_quiet: terms.quiet,
            told,
        })
    }

    /// The number of clients that have come.
    pub fn accepted(&self) -> u64 {
        self.counts.frames.saturating_add(self.counts.https)
    }

    /// Whether as many came as are to come.
    pub fn is_shut(&self) -> bool {
        self.accepted() >= self.most
    }

    /// Whether as many clients are served as may be at once.
    pub fn is_full(&self) -> bool {
        self.talks.clients() >= self.places
    }

    /// Answers what came of some clients, together. Whether there may be more of it at once.
    pub fn round<N: Clock, S: Alter + Drop>(
        &mut self,
        rt: &N,
        replica: &mut Replica<S>,
        ready: &[u64],
    ) -> bool
        ensures { HasRound (talking_of self.old.talks) (talking_of self.new.talks) replica.old replica.new }
    {
        self.counts.begin_round(rt, self.now, replica.commits());
        let more = self.talks.round(replica, ready, &mut self.counts, self.now);
        self.counts.end_round(rt, replica.commits());
        more
    }

    /// Lets nobody in any more, where a client asked that the server ends. Whether it did so now.
    pub fn shuts(&mut self) -> bool
        ensures { self.new.talks ≡ self.old.talks }
    {
        let shuts = self.talks.is_ending && self.most != 0;
        if shuts {
            self.most = 0;
        }
        shuts
    }
}
