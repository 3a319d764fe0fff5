//! A site whose states are stored before a reply says so.
ghost use Rattle.std.specs.Prelude.{◌≡◌, ◌≤◌, Ok, MatchResult, false, length};
ghost use Rattle.std.specs.Option.{option_copied};
ghost use Rattle.std.specs.FinMap as map;
ghost use Rattle.mvd_dots.specs.Answer.{IsAnswer};
ghost use Rattle.mvd_rows.specs.Siblings.{conflicts_in};
ghost use Rattle.mvd_wire.specs.declared.request.Request.TheVariants.{Push};
ghost use Rattle.mvd_wire.specs.declared.reply.Reply.TheVariants.{Refused};
ghost use Rattle.mvd_site.specs.FromStates.{unless_broken};
ghost use Rattle.mvd_site.specs.Held.{AreHeld};
ghost use Rattle.mvd_site.specs.Prepared.{is_refusal};
ghost use Rattle.sqlite.specs.State.{IsLive};
ghost use Rattle.mvd_replica.specs.Pushes.{told_of};

use crate::groups::prepare_one;
use crate::restoring::site_in;
use mvd_dots::Refusal;
use mvd_keys::{Key, KeyState, Path};
use mvd_records::Records;
use mvd_site::{Config, Prepared, Site};
use mvd_wire::{Digests, Reply, Request};
use sqlite::{Alter, Connection};
use std::alloc::Global;

/// A site, and its records. They hold its states as long as the store is sound and the site is not broken.
#[derive(Drop)]
pub struct Replica<S: Alter> {
    pub(crate) alloc: Global,
    pub(crate) site: Site,
    pub(crate) records: Records<S>,
    /// The number of commits of changes that were made since it was opened.
    pub(crate) commits: u64,
    ghost moved: { records.version ≡ 2 },
}

impl<S: Alter> Replica<S> {
    ghost use Rattle.mvd_replica.specs.Commits.{AnswersOneRequest};
    ghost use Rattle.mvd_replica.specs.ReplicaCalls.{GivesConnection, OpensReplica, PushesState};
    ghost use Rattle.mvd_peer.specs.SiteTells.{TellsBucketPage, TellsState, node_told};
    ghost use Rattle.mvd_replica.specs.Replicas.{commits_of, site_of, store_of};

    /// The replica of a site, with the states that its records hold. Records of version 1 are moved to
    /// version 2 first, key by key. A refusal gives the connection back. Another program's database is
    /// refused with `Damaged` before anything is written.
    pub fn open(
        alloc: Global,
        conn: Connection<S>,
        config: Config,
    ) -> Result<Replica<S>, (Refusal, Connection<S>)>
        ensures { OpensReplica conn config result }
    {
        let mut records = match Records::open(alloc, conn, config.site()) {
            Ok(records) => records,
            Err(refused) => return Err(refused),
        };
        match site_in(alloc, &mut records, config) {
            Ok(site) => {
                let replica = Replica {
                    alloc,
                    site,
                    records,
                    commits: 0,
                };
                replica.stands();
                Ok(replica)
            }
            Err(refusal) => Err((refusal, records.into_connection())),
        }
    }

    /// What holds of any replica: each key that is held is one, each state has seen a dot and has a spelling within
    /// the limit, and while its store is open the database lists its schema and obeys it.
    pub fn stands(&self)
        ensures held { AreHeld (site_of self.now).states }
        ensures live { IsLive (store_of self.now) }
    {
        let _held = self.site.key_count();
        let _version = self.records.version();
    }

    /// The site, as it is.
    pub fn site(&self) -> &Site
        ensures { result.now ≡ site_of self.now }
    {
        &self.site
    }

    pub fn config(&self) -> &Config
        ensures { result.now ≡ (site_of self.now).config }
    {
        self.site.config()
    }

    /// The number of keys that are held.
    pub fn key_count(&self) -> u32
        ensures count { result ≡ map.len (site_of self.now).states }
        ensures room { result ≤ (site_of self.now).config.max_keys }
    {
        self.site.key_count()
    }

    /// How many keys are in conflict, 0 where it is broken. It takes no walk.
    pub fn conflict_count(&self) -> u32
        ensures count { let site = site_of self.now in
            result ≡ unless_broken site.broken 0 (length (conflicts_in site.states)) }
        ensures room { result ≤ (site_of self.now).config.max_keys }
    {
        self.site.conflict_count()
    }

    /// How many commits of changes were made since it was opened; it stays at the greatest number.
    pub fn commits(&self) -> u64
        ensures { result ≡ commits_of self.now }
    {
        self.commits
    }

    /// Whether an install was refused memory: the replica then answers `Broken` to everything, until it
    /// is opened again.
    pub fn is_broken(&self) -> bool
        ensures { result ≡ (site_of self.now).broken }
    {
        self.site.is_broken()
    }

    /// The connection of the records.
    pub fn into_connection(self) -> Connection<S>
        ensures { GivesConnection self result }
    {
        self.stands();
        let Replica { records, .. } = self;
        records.into_connection()
    }

    /// Answers one request: the change is prepared, then stored, and then put in. A refusal other than
    /// `Broken` leaves the site as it was, and the records too, unless the store failed: then the next
    /// open may find the change.
    pub fn answer(&mut self, request: &Request) -> Reply
        ensures { AnswersOneRequest self.old request.now result self.new }
    {
        match prepare_one(&self.site, request) {
            Prepared::Answer(reply) => reply,
            Prepared::Change(change) => match self.put_in(change) {
                Ok(reply) => reply,
                Err(refusal) => Reply::Refused(refusal),
            },
        }
    }

    /// The digests of a node and, above the buckets, of its children. It takes no memory; a broken
    /// replica refuses it.
    pub fn node(&self, path: &Path) -> Result<Digests, Refusal>
        ensures { result ≡ node_told (site_of self.now) path.now }
    {
        self.site.node(path)
    }

    /// A page of at most 1,000 of a bucket's keys with their digests, those after a key if one is given,
    /// and whether more follow. `BadPath` where the path has not three digits; a broken replica refuses
    /// it.
    pub fn bucket(
        &self,
        path: &Path,
        after: Option<&Key>,
    ) -> Result<(Vec<(Key, [u8; 32])>, bool), Refusal>
        ensures { TellsBucketPage (site_of self.now) path.now (option_copied after.entry) result }
    {
        self.site.bucket(path, after)
    }

    /// The state of a key, empty where the key is not held. A broken replica refuses it.
    pub fn get(&self, key: &Key) -> Result<KeyState, Refusal>
        ensures { TellsState (site_of self.now) key.now result }
    {
        self.site.get(key)
    }

    /// Joins a state to that of a key, and stores it, as a request to push it does: done; or the first
    /// refusal that applies. A refusal other than `Broken` leaves the site as it was, and the records
    /// too, unless the store failed: then the next open may find the push.
    pub fn push(&mut self, key: &Key, pushed: &KeyState) -> Result<(), Refusal>
        ensures { PushesState self.old key.now pushed.now result self.new }
    {
        // Here it is known that the pushed state's siblings have been seen.
        let _seen = pushed.context();
        if self.site.is_broken() {
            return Err(Refusal::Broken);
        }
        let request = match pushing(self.alloc, key, pushed) {
            Ok(request) => request,
            Err(refusal) => return Err(refusal),
        };
        let reply = self.answer(&request);
        accepted(reply)
    }
}

/// The request to push a state.
pub(crate) fn pushing(alloc: Global, key: &Key, pushed: &KeyState) -> Result<Request, Refusal>
    ensures { IsAnswer result (Ok (Push key.now pushed.now)) }
{
    Ok(Request::Push(key.copy(alloc)?, pushed.copy(alloc)?))
}

/// Whether a reply accepts what was asked.
pub(crate) fn accepted(reply: Reply) -> Result<(), Refusal>
    ensures accepts { MatchResult result (λ _. is_refusal reply ≡ false) (λ refusal. reply ≡ Refused refusal) }
    ensures told { result ≡ told_of reply }
{
    match reply {
        Reply::Refused(refusal) => Err(refusal),
        _ => Ok(()),
    }
}
