//! Requests that are answered, and what a feed notes of them.
ghost use Rattle.std.specs.Prelude.{◌≡◌, ◌<◌, ◌-◌, ◌^◌, IfOk, false};
ghost use Rattle.mvd_replica.specs.ReplicaCalls.{AnswersMany};
ghost use Rattle.mvd_replica.specs.Replicas.{site_of};
ghost use Rattle.mvd_site.specs.Held.{States};
ghost use Rattle.mvd_host.specs.Lists.{ChangesAmong, ListsOn};
ghost use Rattle.mvd_host.specs.Noting.{Notes, NotesChanges, key_to_change, keys_to_change};

use crate::feed::Feed;
use crate::tally::Tally;
use mvd_dots::Refusal;
use mvd_keys::Key;
use mvd_replica::{Replica, key_asked};
use mvd_wire::{Reply, Request};
use sqlite::Alter;
use std::alloc::Global;

impl Feed {
    /// Begins with the root now, where nothing is known.
    pub fn start<S: Alter>(&mut self, replica: &Replica<S>)
        ensures lists { ListsOn self.old (site_of replica.now).states self.new (site_of replica.now).states }
    {
        if self.root().is_some() {
            return;
        }
        if let Ok(root) = replica.root() {
            self.begin(root);
        }
    }

    /// Has a replica answer requests, counts them, and notes what they may have changed.
    pub(crate) fn answer<S: Alter>(
        &mut self,
        replica: &mut Replica<S>,
        requests: Vec<Request>,
        tally: &mut Tally,
    ) -> Result<Vec<Reply>, Refusal>
        ensures answers { AnswersMany replica.old requests.items result replica.new }
        ensures notes { NotesChanges requests.items (site_of replica.old).states
            (site_of replica.new).states self.old self.new }
        ensures lists { ListsOn self.old (site_of replica.old).states self.new (site_of replica.new).states }
    {
        let commits = replica.commits();
        let replies = match replica.answer_all(&requests) {
            Ok(replies) => replies,
            Err(refusal) => {
                tally.note_refused(&requests, refusal);
                return Err(refusal);
            }
        };
        tally.note_all(&requests, &replies);
        if !is_counted(commits, replica.commits()) {
            return Ok(replies);
        }
        self.follow(replica, requests);
        Ok(replies)
    }

    /// Notes what these requests may have changed, and the root now.
    fn follow<S: Alter>(&mut self, replica: &Replica<S>, requests: Vec<Request>)
        ensures notes { Notes requests.items (site_of replica.now).states self.old self.new }
        ensures lists { (before : States)
            → ChangesAmong (keys_to_change requests.items) before (site_of replica.now).states →
            ListsOn self.old before self.new (site_of replica.now).states }
    {
        let Ok(root) = replica.root() else {
            return self.forget();
        };
        match changed_keys(self.alloc, requests) {
            Ok(keys) => {
                let _ = self.note(keys, root);
            }
            Err(_) => self.begin(root),
        }
    }
}

/// Whether a commit may have been counted. The count stays at the greatest number.
fn is_counted(before: u64, now: u64) -> bool
    ensures { result ≡ false → (now ≡ before) × (before < 2 ^ 64 - 1) }
{
    now != before || before == u64::MAX
}

/// The keys that requests ask to change.
fn changed_keys(alloc: Global, requests: Vec<Request>) -> Result<Vec<Key>, Refusal>
    ensures { IfOk result (λ keys. keys.items ≡ keys_to_change requests.items) }
{
    let mut keys = Vec::with_capacity(alloc, count_changes(&requests))?;
    for request in requests {
        if let Some(key) = changed_key(request) {
            keys.push(key)?;
        }
    }
    Ok(keys)
}

/// How many requests ask to change a key.
fn count_changes(requests: &[Request]) -> usize {
    requests
        .iter()
        .filter(|request| key_asked(*request).is_some())
        .count()
}

/// The key that a request asks to change.
fn changed_key(request: Request) -> Option<Key>
    ensures { result ≡ key_to_change request }
{
    match request {
        Request::Put(key, ..) => Some(key),
        Request::Delete(key, _) => Some(key),
        Request::Push(key, _) => Some(key),
        _ => None,
    }
}
