//! What a put, a delete or a push comes to, by the state that its key was found in: that which is held, or that which a
//! change leaves that is not put in yet.
ghost use Rattle.std.specs.Prelude.{◌≡◌, ◌≢◌, Some, IfErr, IfOk, true};
ghost use Rattle.std.specs.FinMap as map;
ghost use Rattle.mvd_dots.specs.declared.refusals.Refusal.TheVariants.{Broken, Memory};
ghost use Rattle.mvd_keys.specs.State.{IsValid, join_answer};
ghost use Rattle.mvd_keys.specs.Writes.{is_empty};
ghost use Rattle.mvd_wire.specs.declared.request.Request.TheVariants.{Put, Delete, Push};
ghost use Rattle.std.specs.Prelude.{Ok};
ghost use Rattle.mvd_kept.specs.Held.{IsKept, States};
ghost use Rattle.mvd_kept.specs.Known.{IsValidRequest};
ghost use Rattle.mvd_kept.specs.Over.{AsksToChange, IsFoundIn, IsReadyOver, LimitsOver, PreparesOver, with_states};
ghost use Rattle.mvd_kept.specs.Prepared.{IsReady, PreparesFrom};

use crate::kept::Kept;
use crate::prepared::{Change, Prepared, reply_of};
use mvd_docs::Document;
use mvd_dots::{Context, Dot, Refusal};
use mvd_keys::{Key, KeyState};
use mvd_wire::{Reply, Request, STATE_LIMIT, state_length};

impl Kept {
    /// What a request to change the key of a change comes to once that is put in, whatever else is. Nothing is changed
    /// yet. It takes no look.
    pub fn prepare_after(&self, before: &Change, request: &Request) -> Result<Prepared, Refusal>
        requires { AsksToChange before.now.key request.now }
        ensures states { (states : States) → map.get states before.now.key ≡ Some before.now.state →
            PreparesFrom self.now.config states request.now result }
        ensures ready { (states : States) → map.get states before.now.key ≡ Some before.now.state →
            IfOk result (IsReady (with_states self.now states)) }
        ensures valid { IfOk result (λ _. IsValidRequest request.now) }
        ensures whole { IfErr result (λ refusal. refusal ≢ Broken) }
    {
        // Here it is known that the state is not too long, and that its siblings have been seen.
        let old = before.state();
        let _seen = old.context();
        match request {
            Request::Put(key, seen, document) => self.put_over(key, true, old, seen, document),
            Request::Delete(key, seen) => self.delete_over(key, true, old, seen),
            Request::Push(key, pushed) => self.push_over(key, true, old, pushed),
            _ => unreachable!(),
        }
    }

    pub(crate) fn put_over(
        &self,
        key: &Key,
        is_held: bool,
        old: &KeyState,
        seen: &Context,
        document: &Document,
    ) -> Result<Prepared, Refusal>
        ensures answer { PreparesOver self.now key.now is_held old.now (Put key.now seen.now document.now) result }
        ensures ready { IsReadyOver self.now key.now is_held old.now result }
        ensures whole { IfErr result (λ refusal. refusal ≢ Broken) }
    {
        let document = document.copy()?;
        match old.put(self.alloc, self.config.site(), seen, document) {
            Err(refusal) => return Err(refusal),
            Ok((state, dot)) => return self.limited(key, is_held, old, state, Some(dot)),
        }
    }

    pub(crate) fn delete_over(
        &self,
        key: &Key,
        is_held: bool,
        old: &KeyState,
        seen: &Context,
    ) -> Result<Prepared, Refusal>
        requires { IsKept old.now }
        ensures answer { PreparesOver self.now key.now is_held old.now (Delete key.now seen.now) result }
        ensures ready { IsReadyOver self.now key.now is_held old.now result }
        ensures whole { IfErr result (λ refusal. refusal ≢ Broken) }
    {
        match old.delete(self.alloc, seen) {
            Err(refusal) => return Err(refusal),
            Ok(state) => return self.limited(key, is_held, old, state, None),
        }
    }

    pub(crate) fn push_over(
        &self,
        key: &Key,
        is_held: bool,
        old: &KeyState,
        pushed: &KeyState,
    ) -> Result<Prepared, Refusal>
        requires { IsKept old.now }
        ensures answer { PreparesOver self.now key.now is_held old.now (Push key.now pushed.now) result }
        ensures ready { IsReadyOver self.now key.now is_held old.now result }
        ensures valid { IfOk result (λ _. IsValid pushed.now) }
        ensures whole { IfErr result (λ refusal. refusal ≢ Broken) }
        ensures frugal { join_answer old.now pushed.now ≡ Ok old.now → IfErr result (λ refusal. refusal ≢ Memory) }
    {
        if state_length(pushed) > STATE_LIMIT {
            return Err(Refusal::StateTooLarge);
        }
        if old.includes(pushed) {
            return Ok(Prepared::Answer(Reply::Done));
        }
        match old.join(self.alloc, pushed) {
            Err(refusal) => return Err(refusal),
            Ok(state) => return self.limited(key, is_held, old, state, None),
        }
    }

    /// What giving the key this state comes to, by the limits; `dot` is that of a put.
    fn limited(
        &self,
        key: &Key,
        is_held: bool,
        old: &KeyState,
        after: KeyState,
        dot: Option<Dot>,
    ) -> Result<Prepared, Refusal>
        requires grows { is_empty after.context ≡ true → after ≡ old.now }
        ensures limits { LimitsOver self.now key.now is_held old.now after dot result }
        ensures ready { IsReadyOver self.now key.now is_held old.now result }
        ensures whole { IfErr result (λ refusal. refusal ≢ Broken) }
    {
        if state_length(&after) > STATE_LIMIT {
            return Err(Refusal::StateTooLarge);
        }
        if old.same(&after) {
            return Ok(Prepared::Answer(reply_of(dot)));
        }
        if !is_held && self.states.len() == self.config.max_keys() as usize {
            return Err(Refusal::Full);
        }
        let change = Change::new(self.alloc, key, is_held, after, dot)?;
        Ok(Prepared::Change(change))
    }
}
