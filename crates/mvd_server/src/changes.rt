//! What changed since a root, as it is told over HTTP.
ghost use Rattle.std.specs.Prelude.{◌≡◌, ◌<◌, ◌++◌, [], IfOk, IfSome, None, Ok, OnOk, Some, option_copied, option_map, string_bytes, true};
ghost use Rattle.mvd_host.specs.Feeds.{changed_by, told_since};
ghost use Rattle.mvd_replica.specs.Replicas.{site_of};
ghost use Rattle.mvd_server.specs.News.{HasNews};
ghost use Rattle.mvd_server.specs.Since.{IsQuiet, followed_in, since_text, told_if};

use crate::listings::SiteStates;
use mvd_dots::Refusal;
use mvd_host::{Changed, Feed};
use mvd_http::{Followed, Question, push_changed, push_changes};
use mvd_replica::Replica;
use mvd_web::Asked;
use sqlite::Alter;
use std::alloc::Global;

/// Which changes a request asks for, if it asks for such.
pub(crate) fn followed_by(asked: Option<&Asked>) -> Option<&Followed>
    ensures { option_copied result ≡ followed_in (option_copied asked.entry) }
{
    match &asked?.question {
        Ok(Question::Changes(_, _, followed)) => Some(followed),
        _ => None,
    }
}

/// The keys that changed since a root. Where none is named, or what changed since is not known, all is to be read anew.
pub(crate) fn push_since<S: Alter + Drop>(
    alloc: Global,
    changes: &Feed,
    replica: &Replica<S>,
    since: Option<[u8; 32]>,
    followed: &Followed,
    body: &mut String,
) -> Result<(), Refusal>
    ensures { OnOk result (string_bytes body.new ≡
        string_bytes body.old ++ since_text changes.now followed.now (site_of replica.now).states since) }
{
    let Some(root) = changes.root() else {
        return push_changes(alloc, body, replica.root()?, &[], true);
    };
    match changed_since(changes, since, followed)? {
        Some(changed) => {
            let held = SiteStates {
                site: replica.site(),
            };
            push_changed(
                alloc,
                &held,
                followed.states,
                changed.root,
                &changed.keys,
                body,
            )
        }
        None => push_changes(alloc, body, root, &[], true),
    }
}

fn changed_since(
    changes: &Feed,
    since: Option<[u8; 32]>,
    followed: &Followed,
) -> Result<Option<Changed>, Refusal>
    ensures { IfOk result (λ told. option_map changed_by told ≡ told_if changes.now followed.now.prefix since) }
{
    match &since {
        Some(since) => changes.since(since, &followed.prefix),
        None => Ok(None),
    }
}

/// The root now, where this root is known and nothing that is asked for changed since.
fn quiet_root(
    changes: &Feed,
    since: Option<[u8; 32]>,
    followed: &Followed,
) -> Result<Option<[u8; 32]>, Refusal>
    ensures { IfOk result (λ quiet. IfSome quiet (λ root.
        told_if changes.now followed.now.prefix since ≡ Some (record { keys = []; root = root }))) }
{
    match changed_since(changes, since, followed)? {
        Some(changed) if changed.keys.is_empty() => Ok(Some(changed.root)),
        _ => Ok(None),
    }
}

/// The root now, where nothing changed that is asked for, and who asks would wait for that.
pub(crate) fn root_to_wait_from(
    asked: Option<&Asked>,
    changes: &Feed,
    since: Option<[u8; 32]>,
    wait: u32,
) -> Result<Option<[u8; 32]>, Refusal>
    ensures { IfOk result (λ quiet. IfSome quiet (λ root.
        (0 < wait) × IsQuiet changes.now since (followed_in (option_copied asked.entry)) root)) }
{
    match followed_by(asked) {
        Some(followed) if wait > 0 => quiet_root(changes, since, followed),
        _ => Ok(None),
    }
}

/// What was told of late to one that waited, of the changes since a root, and of what it asked.
#[derive(Drop)]
pub(crate) struct News {
    alloc: Global,
    since: Option<[u8; 32]>,
    asked: Option<Followed>,
    /// Whether there is something to tell, or why not.
    told: Result<bool, Refusal>,
    pub body: String,
}

impl News {
    pub fn new(alloc: Global, since: Option<[u8; 32]>) -> News
        ensures { result.asked ≡ None }
    {
        News {
            alloc,
            since,
            asked: None,
            told: Ok(false),
            body: String::new(alloc),
        }
    }

    /// Puts down what changed, where something did that is asked for. Who asks for the same is told the same.
    pub fn tell<S: Alter + Drop>(
        &mut self,
        changes: &Feed,
        replica: &Replica<S>,
        followed: &Followed,
    ) -> Result<bool, Refusal>
        ensures news { HasNews changes.now (site_of replica.now).states self.old →
            HasNews changes.now (site_of replica.now).states self.new }
        ensures told { HasNews changes.now (site_of replica.now).states self.old → result ≡ Ok true →
            string_bytes self.new.body ≡ since_text changes.now followed.now (site_of replica.now).states self.new.since }
    {
        if !self.is_of(followed) {
            self.body.clear();
            self.told = push_news(
                self.alloc,
                changes,
                replica,
                self.since,
                followed,
                &mut self.body,
            );
            self.asked = copy_followed(self.alloc, followed);
        }
        self.told
    }

    fn is_of(&self, followed: &Followed) -> bool
        ensures { result ≡ true → self.now.asked ≡ Some followed.now }
    {
        match &self.asked {
            Some(asked) => {
                asked.states == followed.states && asked.prefix.text() == followed.prefix.text()
            }
            None => false,
        }
    }
}

/// What is asked for. Where memory is refused, nothing is.
fn copy_followed(alloc: Global, followed: &Followed) -> Option<Followed>
    ensures { IfSome result (λ copy. copy ≡ followed.now) }
{
    match followed.prefix.copy(alloc) {
        Ok(prefix) => Some(Followed {
            prefix,
            states: followed.states,
        }),
        Err(_) => None,
    }
}

/// Whether something changed that is asked for. Then it is put down.
fn push_news<S: Alter + Drop>(
    alloc: Global,
    changes: &Feed,
    replica: &Replica<S>,
    since: Option<[u8; 32]>,
    followed: &Followed,
    body: &mut String,
) -> Result<bool, Refusal>
    ensures { result ≡ Ok true → string_bytes body.new ≡
        string_bytes body.old ++ since_text changes.now followed.now (site_of replica.now).states since }
{
    if quiet_root(changes, since, followed)?.is_some() {
        return Ok(false);
    }
    push_since(alloc, changes, replica, since, followed, body)?;
    Ok(true)
}
