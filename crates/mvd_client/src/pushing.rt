//! What a stored site tells of a window. Of its pushes as many as do not see each other share a commit.
ghost use Rattle.std.specs.Prelude.{◌≡◌, ◌≤◌, ◌+◌, ◌++◌, IfErr, IfOk, Ok, length, map, vec_capacity};
ghost use Rattle.mvd_client.specs.Pushing.{EndsPushes, FollowsTurns, StoredTells, TellsPushed, TellsPushes};
ghost use Rattle.mvd_dots.specs.Answer.{IsAnswer};
ghost use Rattle.mvd_dots.specs.declared.refusals.Refusal.TheVariants.{Memory};
ghost use Rattle.mvd_keys.specs.State.{IsValid};
ghost use Rattle.mvd_peer.specs.PushedStates.{Each};
ghost use Rattle.mvd_replica.specs.Pushes.{push_of, told_of};
ghost use Rattle.mvd_wire.specs.declared.request.Request.TheVariants.{Push};

use mvd_dots::Refusal;
use mvd_keys::{Key, KeyState};
use mvd_peer::{Told, Window};
use mvd_replica::Replica;
use mvd_wire::{Reply, Request};
use sqlite::Alter;
use std::alloc::Global;

/// What it tells of a window.
pub(crate) fn tell<S: Alter + Drop>(
    alloc: Global,
    replica: &mut Replica<S>,
    window: &Window,
) -> Told
    ensures told { StoredTells replica.old window.now result replica.new }
    // However it ends, all that was done is turns.
    ensures turns { FollowsTurns replica.old replica.new }
{
    match replica.read(window) {
        Ok(told) => told,
        Err(pairs) => push_window(alloc, replica, pairs),
    }
}

/// What it tells of pushes.
fn push_window<S: Alter + Drop>(
    alloc: Global,
    replica: &mut Replica<S>,
    pairs: &[(Key, KeyState)],
) -> Told
    ensures told { TellsPushed replica.old pairs.now result replica.new }
    ensures turns { FollowsTurns replica.old replica.new }
{
    match push_all(alloc, replica, pairs) {
        Ok(told) => Told::Pushes(told),
        Err(refusal) => Told::Refused(refusal),
    }
}

/// Joins each state to that of its key, and tells what each push came to. As many as do not see each other share a
/// commit, up to 1,024.
fn push_all<S: Alter + Drop>(
    alloc: Global,
    replica: &mut Replica<S>,
    pairs: &[(Key, KeyState)],
) -> Result<Vec<Result<(), Refusal>>, Refusal>
    ensures told { IfOk result (TellsPushes replica.old pairs.now replica.new) }
    // It is refused for want of memory, or by a site that is broken then.
    ensures ended { IfErr result (EndsPushes replica.old replica.new) }
    ensures turns { FollowsTurns replica.old replica.new }
{
    replica.stands();
    let mut told = Vec::with_capacity(alloc, pairs.len())?;
    let requests = pushes_of(alloc, pairs)?;
    let replies = replica.answer_all(&requests)?;
    replica.stands();
    if replica.is_broken() {
        return Err(Refusal::Broken);
    }
    add_told(replies, &mut told);
    Ok(told)
}

/// The requests to push these states.
fn pushes_of(alloc: Global, pairs: &[(Key, KeyState)]) -> Result<Vec<Request>, Refusal>
    ensures pushes { IfOk result (λ requests. requests.items ≡ map push_of pairs.now) }
    ensures valid { IfOk result (λ _. Each (λ pair. IsValid pair.1) pairs.now) }
    ensures memory { IfErr result (λ refusal. refusal ≡ Memory) }
{
    let mut requests = Vec::with_capacity(alloc, pairs.len())?;
    for (key, state) in pairs {
        // Here it is known that the pushed state's siblings have been seen.
        let _seen = state.context();
        let request = pushing(alloc, key, state)?;
        requests.push(request)?;
    }
    Ok(requests)
}

/// The request to push a state.
fn pushing(alloc: Global, key: &Key, state: &KeyState) -> Result<Request, Refusal>
    ensures { IsAnswer result (Ok (Push key.now state.now)) }
{
    Ok(Request::Push(key.copy(alloc)?, state.copy(alloc)?))
}

/// Adds what each reply tells of its push.
fn add_told(replies: Vec<Reply>, told: &mut Vec<Result<(), Refusal>>)
    requires room { length told.old.items + length replies.items ≤ vec_capacity told.old }
    ensures told { told.new.items ≡ told.old.items ++ map told_of replies.items }
{
    for reply in replies {
        let answer = accepted(reply);
        told.push_reserved(answer);
    }
}

/// Whether a reply accepts what was asked.
fn accepted(reply: Reply) -> Result<(), Refusal>
    ensures { result ≡ told_of reply }
{
    match reply {
        Reply::Refused(refusal) => Err(refusal),
        _ => Ok(()),
    }
}
