//! Many requests at once, whose changes share commits.
ghost use Rattle.std.specs.Prelude.{◌≡◌, ◌≤◌, ◌<◌, ◌+◌, IfErr, IfOk, List, OnErr, OnOk, false, length, vec_capacity};
ghost use Rattle.mvd_wire.specs.declared.request.Request.{Request};
ghost use Rattle.mvd_replica.specs.Commits.{AnswersOneRequest, Shares, SharesFront};
ghost use Rattle.mvd_replica.specs.Groups.{IsAlone, StandTogether};
ghost use Rattle.mvd_replica.specs.ReplicaCalls.{AnswersMany};
ghost use Rattle.mvd_replica.specs.Replicas.{site_of};

use crate::groups::{counted, prepare_all, refuse_all, store_all};
use crate::replica::Replica;
use mvd_dots::Refusal;
use mvd_site::{Change, Prepared};
use mvd_wire::{Reply, Request};
use sqlite::Alter;

impl<S: Alter> Replica<S> {
    /// The replies of `answer` to one request after the other. Up to 1,024 requests share a commit, also changes of one
    /// key, each over the one before it. It ends before a question that could see what one before it changes; before a
    /// request at a key that changes already which changes nothing, alone or then; and where there may be no room for a
    /// key that is added, or memory is refused. No reply tells of a change that is not committed. Where a commit is
    /// refused, each change in it is told so, and nothing of it was done. Where putting a change in breaks the site,
    /// that request and all after it are told so; the records hold its change, and those of some later ones. Where
    /// memory is refused for the list of replies, nothing was done.
    pub fn answer_all(&mut self, requests: &[Request]) -> Result<Vec<Reply>, Refusal>
        ensures { AnswersMany self.old requests.now result self.new }
    {
        let mut replies = Vec::with_capacity(self.alloc, requests.len())?;
        'groups: while replies.len() < requests.len() {
            self.answer_front(&requests[replies.len()..], &mut replies);
        }
        Ok(replies)
    }

    /// Answers the first of some requests, and those after it that can share its commit; where none can, or memory
    /// is refused for what they share, the first alone.
    fn answer_front(&mut self, requests: &[Request], replies: &mut Vec<Reply>)
        requires some { 0 < length requests.now }
        requires room { length replies.old.items + length requests.now ≤ vec_capacity replies.old }
        ensures answers { SharesFront requests.now replies.old.items replies.new.items self.old self.new }
        ensures room { vec_capacity replies.new ≡ vec_capacity replies.old }
    {
        match self.share(requests, replies) {
            Ok(()) => {}
            Err(_) => {
                let reply = self.answer(&requests[0]);
                replies.push_reserved(reply);
            }
        }
    }

    /// Answers the first of some requests with those after it that can share its commit, unless the replica is broken
    /// or memory is refused for a list of them: then nothing was done.
    fn share(&mut self, requests: &[Request], replies: &mut Vec<Reply>) -> Result<(), Refusal>
        requires some { 0 < length requests.now }
        requires room { length replies.old.items + length requests.now ≤ vec_capacity replies.old }
        ensures ok { OnOk result (SharesFront requests.now replies.old.items replies.new.items self.old self.new) }
        ensures err { OnErr result ((self.new ≡ self.old) × (replies.new ≡ replies.old)) }
        ensures room { vec_capacity replies.new ≡ vec_capacity replies.old }
    {
        if self.site.is_broken() {
            return Err(Refusal::Broken);
        }
        let group = prepare_all(self.alloc, &self.site, requests)?;
        self.commit(group, replies)
    }

    /// Puts in one change, in a commit of its own, and gives its reply. Where memory is refused before that, nothing
    /// was done.
    pub(crate) fn put_in(&mut self, change: Change) -> Result<Reply, Refusal>
        requires whole { (site_of self.old).broken ≡ false }
        requires alone { (request : Request) × IsAlone (site_of self.old) request change }
        ensures ok { IfOk result (λ reply. (request : Request) → IsAlone (site_of self.old) request change →
            AnswersOneRequest self.old request reply self.new) }
        ensures err { IfErr result (λ refusal. (refusal ≡ Refusal.Memory) × (self.new ≡ self.old)) }
    {
        let mut group = Vec::with_capacity(self.alloc, 1)?;
        let mut replies = Vec::with_capacity(self.alloc, 1)?;
        group.push_reserved(Prepared::Change(change));
        self.commit(group, &mut replies)?;
        match replies.pop() {
            Some(reply) => Ok(reply),
            None => unreachable!(),
        }
    }

    /// Stores in one commit what requests came to, and then puts it in. Where memory is refused for what is to be
    /// stored, nothing was done.
    fn commit(&mut self, group: Vec<Prepared>, replies: &mut Vec<Reply>) -> Result<(), Refusal>
        requires whole { (site_of self.old).broken ≡ false }
        requires together { (requests : List Request) × StandTogether (site_of self.old) requests group.items }
        requires room { length replies.old.items + length group.items ≤ vec_capacity replies.old }
        ensures ok { OnOk result ((requests : List Request) → StandTogether (site_of self.old) requests group.items →
            Shares requests replies.old.items replies.new.items self.old self.new) }
        ensures err { IfErr result (λ refusal. (refusal ≡ Refusal.Memory) × (self.new ≡ self.old)) }
        ensures spared { OnErr result (replies.new ≡ replies.old) }
        ensures room { vec_capacity replies.new ≡ vec_capacity replies.old }
    {
        self.stands();
        match store_all(self.alloc, &mut self.records, &group) {
            Ok(()) => {
                self.commits = counted(self.commits, &group);
                self.site.install_all(group, replies);
                Ok(())
            }
            Err(Refusal::Memory) => Err(Refusal::Memory),
            Err(_) => {
                refuse_all(group, replies);
                Ok(())
            }
        }
    }
}
