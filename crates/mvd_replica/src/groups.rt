//! What requests come to that share a commit: prepared side by side, and stored at once.
ghost use Rattle.std.specs.Prelude.{◌≡◌, ◌≤◌, ◌<◌, ◌+◌, ◌++◌, [], IfErr, IfOk, IfSome, None, drop, false, length, map};
ghost use Rattle.std.specs.Prelude.{take, true};
ghost use Rattle.std.specs.Prelude.{vec_capacity};
ghost use Rattle.mvd_records.specs.Pairs.{saved_entries};
ghost use Rattle.mvd_wire.specs.Codecs.{spell_state};
ghost use Rattle.mvd_dots.specs.declared.refusals.Refusal.TheVariants.{Broken};
ghost use Rattle.mvd_kept.specs.declared.prepared.Prepared.TheVariants.{Answer};
ghost use Rattle.mvd_wire.specs.declared.reply.Reply.TheVariants.{Refused};
ghost use Rattle.mvd_site.specs.Installs.{changes_in, is_change};
ghost use Rattle.mvd_replica.specs.Adding.{CountsKeys};
ghost use Rattle.mvd_replica.specs.Behind.{AreLast, JoinsGroup};
ghost use Rattle.mvd_replica.specs.Groups.{ComesTo, FirstWaits, IsBounded, IsSendable, MustWait};
ghost use Rattle.mvd_replica.specs.Groups.{StandTogether, held_in, pairs_in, reply_unstored, state_bytes_in, state_bytes_of};
ghost use Rattle.mvd_replica.specs.Replicas.{next_count};
ghost use Rattle.mvd_replica.specs.Restored.{WereSound};
ghost use Rattle.mvd_replica.specs.Shared.{IsUnstored, StoresNone, StoresOpen, StoresPairs, SurvivesPairs};
ghost use Rattle.mvd_replica.specs.Shared.{WereClean};

use crate::adding::{SHARING_MAX, keys_added, lacks_room};
use crate::behind::{follow, last_change};
use crate::waiting::{Waiting, asks_any};
use mvd_dots::Refusal;
use mvd_records::{Records, Save};
use mvd_site::{Change, Prepared, Site};
use mvd_wire::{Reply, Request};
use sqlite::Alter;
use std::alloc::Global;

/// The bytes of states from which on a group is committed.
const BYTES_MAX: usize = 4_194_304;

/// The number of changes that this is.
fn changes_of(prepared: &Prepared) -> u32
    ensures count { result ≡ is_change prepared.now }
    ensures few { result ≤ 1 }
{
    match prepared {
        Prepared::Change(_) => 1,
        Prepared::Answer(_) => 0,
    }
}

/// How many bytes spell the state that it gives a key.
fn bytes_of(prepared: &Prepared) -> usize
    ensures count { result ≡ state_bytes_of prepared.now }
    ensures few { result ≤ 1150000 }
{
    match prepared {
        Prepared::Change(change) => {
            // Here it is known that it is not too long.
            let _state = change.state();
            change.bytes().len()
        }
        Prepared::Answer(_) => 0,
    }
}

/// What a request comes to, a refusal as the reply that tells it.
pub fn prepare_one(site: &Site, request: &Request) -> Prepared
    ensures broken { site.now.broken ≡ true → result ≡ Answer (Refused Broken) }
    ensures comes { site.now.broken ≡ false →
        ComesTo site.now.config site.now.states request.now result × IsSendable request.now result }
{
    let prepared = match site.prepare(request) {
        Ok(prepared) => prepared,
        Err(refusal) => return Prepared::Answer(Reply::Refused(refusal)),
    };
    if let Prepared::Change(change) = &prepared {
        // Here it is known that what comes in has a spelling, that its siblings' dots were seen, and that its key is
        // one.
        let state = change.state();
        let _seen = state.context();
        let key = change.key();
        let _text = key.text();
    }
    prepared
}

/// What a request comes to behind a group, with how many keys it adds; `None` where it has to wait until that is put
/// in: it could see a change, there may be less room for it then, or they are as many as share a commit, or their
/// states have as many bytes.
fn join<'a>(
    site: &Site,
    group: &[Prepared],
    waiting: &Waiting<'a>,
    bytes: usize,
    changes: u32,
    added: u32,
    request: &'a Request,
) -> Result<Option<(Prepared, u32)>, Refusal>
    requires bytes { bytes ≡ state_bytes_in group.now }
    requires count { changes ≡ changes_in group.now }
    requires keys { CountsKeys site.now group.now added }
    requires noted { AreLast group.now waiting.now }
    ensures joins { IfOk result (λ found. IfSome found (λ it.
        JoinsGroup site.now group.now added request.now it.0 it.1)) }
    ensures short { IfOk result (λ found. IfSome found (λ _. length group.now < 1024)) }
    ensures light { IfOk result (λ found. IfSome found (λ _. bytes < 4194304)) }
    ensures waits { IfOk result (λ found. found ≡ None → MustWait site.now request.now group.now) }
    ensures memory { IfErr result (λ refusal. refusal ≡ Refusal.Memory) }
{
    if group.len() >= SHARING_MAX || bytes >= BYTES_MAX {
        return Ok(None);
    }
    match last_change(group, waiting, request) {
        Some(before) => {
            return match follow(site, before, request) {
                Some(prepared) => Ok(Some((prepared, 0))),
                None => Ok(None),
            };
        }
        None => {}
    }
    let lacks = lacks_room(site, added, request)?;
    if lacks {
        return Ok(None);
    }
    if asks_any(request, waiting, changes) {
        return Ok(None);
    }
    let prepared = prepare_one(site, request);
    let adds = keys_added(site, &prepared)?;
    Ok(Some((prepared, adds)))
}

/// What requests come to, from the first on, up to one that has to wait for those before it. Their states have fewer
/// than 4,194,304 bytes before the last.
pub fn prepare_all(
    alloc: Global,
    site: &Site,
    requests: &[Request],
) -> Result<Vec<Prepared>, Refusal>
    ensures count { IfOk result (λ group. length group.items ≤ length requests.now) }
    ensures some { IfOk result (λ group. 0 < length requests.now → 0 < length group.items) }
    ensures together { IfOk result (λ group. site.now.broken ≡ false →
        StandTogether site.now (take (length group.items) requests.now) group.items) }
    ensures bounded { IfOk result (λ group. IsBounded group.items) }
    // The group ends where the requests do, or where the next one has to wait.
    ensures ends { IfOk result (λ group.
        FirstWaits site.now group.items (drop (length group.items) requests.now)) }
    ensures memory { IfErr result (λ refusal. refusal ≡ Refusal.Memory) }
{
    let mut group = Vec::with_capacity(alloc, requests.len().min(SHARING_MAX))?;
    let mut waiting = Waiting::new(alloc);
    let mut bytes: usize = 0;
    let mut changes: u32 = 0;
    let mut added: u32 = 0;
    for request in requests {
        let joined = join(site, &group, &waiting, bytes, changes, added, request)?;
        let Some((prepared, adds)) = joined else {
            return Ok(group);
        };
        waiting.note(request, &prepared, group.len(), requests.len())?;
        added += adds;
        changes += changes_of(&prepared);
        bytes += bytes_of(&prepared);
        group.push_reserved(prepared);
    }
    Ok(group)
}

/// What is to be stored of a change.
fn save_of(change: &Change) -> Save<'_>
    ensures key { result.key.now ≡ change.now.key }
    ensures bytes { result.bytes.now ≡ spell_state change.now.state }
    ensures held { result.is_held ≡ change.now.was_held }
{
    Save {
        key: change.key().text(),
        bytes: change.bytes(),
        is_held: change.was_held(),
    }
}

/// What is to be stored of these. A key is held where the site holds it, or a change before it has put it in.
fn saves_of(alloc: Global, group: &[Prepared]) -> Result<Vec<Save<'_>>, Refusal>
    ensures saves { IfOk result (λ saves. saved_entries saves.items ≡ pairs_in group.now) }
    ensures held { IfOk result (λ saves. map (λ save. save.is_held) saves.items ≡ held_in group.now) }
    ensures memory { IfErr result (λ refusal. refusal ≡ Refusal.Memory) }
{
    let mut saves = Vec::with_capacity(alloc, group.len())?;
    for prepared in group {
        if let Prepared::Change(change) = prepared {
            saves.push(save_of(change))?;
        }
    }
    Ok(saves)
}

/// Stores the changes among these at once. Where memory is refused, or there are none, the records are as they were.
pub fn store_all<S: Alter>(
    alloc: Global,
    records: &mut Records<S>,
    group: &[Prepared],
) -> Result<(), Refusal>
    requires { records.old.version ≡ 2 }
    ensures before { WereSound S.Store records.old records.new }
    ensures clean { WereClean S.Store records.old records.new }
    ensures open { StoresOpen S.Store (pairs_in group.now) result records.new }
    ensures stored { StoresPairs S.Store records.old (pairs_in group.now) result records.new }
    ensures unchanged { StoresNone S.Store records.old result records.new }
    ensures refusal { IfErr result (IsUnstored records.old records.new) }
    ensures version { records.new.version ≡ records.old.version }
    ensures still { pairs_in group.now ≡ [] → records.new ≡ records.old }
    ensures survives { SurvivesPairs S.Store records.old (pairs_in group.now) records.new }
{
    if group.len() == 1 {
        return match &group[0] {
            Prepared::Change(change) => records.save(&save_of(change)),
            Prepared::Answer(_) => Ok(()),
        };
    }
    let saves = saves_of(alloc, group)?;
    if saves.is_empty() {
        return Ok(());
    }
    records.save_all(&saves)
}

/// A count of commits, with the one that stored these; there is none where no change is among them.
pub fn counted(commits: u64, group: &[Prepared]) -> u64
    ensures none { changes_in group.now ≡ 0 → result ≡ commits }
    ensures one { 0 < changes_in group.now → result ≡ next_count commits }
{
    for prepared in group {
        if let Prepared::Change(_) = prepared {
            return commits.saturating_add(1);
        }
    }
    commits
}

/// The replies where the store refused the changes.
pub fn refuse_all(group: Vec<Prepared>, replies: &mut Vec<Reply>)
    requires room { length replies.old.items + length group.items ≤ vec_capacity replies.old }
    ensures replies { replies.new.items ≡ replies.old.items ++ map reply_unstored group.items }
    ensures room { vec_capacity replies.new ≡ vec_capacity replies.old }
{
    for prepared in group {
        let reply = match prepared {
            Prepared::Answer(reply) => reply,
            Prepared::Change(_) => Reply::Refused(Refusal::Store),
        };
        replies.push_reserved(reply);
    }
}
