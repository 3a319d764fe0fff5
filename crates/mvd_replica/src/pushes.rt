//! Pushes of many states at once, as requests and back.
ghost use Rattle.std.specs.Prelude.{◌≡◌, ◌≤◌, ◌+◌, ◌++◌, IfErr, IfOk, length, map, vec_capacity};
ghost use Rattle.mvd_dots.specs.declared.refusals.Refusal.TheVariants.{Memory};
ghost use Rattle.mvd_keys.specs.State.{IsValid};
ghost use Rattle.mvd_peer.specs.PushedStates.{Each};
ghost use Rattle.mvd_replica.specs.Pushes.{push_of, told_of};

use crate::replica::{accepted, pushing};
use mvd_dots::Refusal;
use mvd_keys::{Key, KeyState};
use mvd_wire::{Reply, Request};
use std::alloc::Global;

/// The requests to push these states.
pub fn pushes_of(alloc: Global, pairs: &[(Key, KeyState)]) -> Result<Vec<Request>, Refusal>
    ensures pushes { IfOk result (λ requests. requests.items ≡ map push_of pairs.now) }
    ensures valid { IfOk result (λ _. Each (λ pair. IsValid pair.1) pairs.now) }
    ensures memory { IfErr result (λ refusal. refusal ≡ Memory) }
{
    let mut requests = Vec::with_capacity(alloc, pairs.len())?;
    for (key, state) in pairs {
        // Here it is known that the pushed state's siblings have been seen.
        let _seen = state.context();
        let request = pushing(alloc, key, state)?;
        requests.push(request)?;
    }
    Ok(requests)
}

/// Adds what each reply tells of its push.
pub fn add_told(replies: Vec<Reply>, told: &mut Vec<Result<(), Refusal>>)
    requires room { length told.old.items + length replies.items ≤ vec_capacity told.old }
    ensures told { told.new.items ≡ told.old.items ++ map told_of replies.items }
{
    for reply in replies {
        let answer = accepted(reply);
        told.push_reserved(answer);
    }
}
