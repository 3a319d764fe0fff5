//! What a site keeps, and the answers to requests from that. The work is added to counts that are handed in.
ghost use Rattle.std.specs.Prelude.{◌≡◌, ◌≢◌, ◌≤◌, false, true, None, Some, Err, Ok};
ghost use Rattle.std.specs.Prelude.{is_some, length, IfOk, IfErr, OnOk};
ghost use Rattle.std.specs.FinMap as map;
ghost use Rattle.mvd_count.specs.Counted.{RoseBy};
ghost use Rattle.mvd_dots.specs.declared.refusals.Refusal.TheVariants.{Broken, DotClash, Memory};
ghost use Rattle.mvd_keys.specs.State.{IsValid, clashes, empty_state};
ghost use Rattle.mvd_wire.specs.Codecs.{spell_state};
ghost use Rattle.mvd_wire.specs.declared.request.Request.TheVariants.{Get, Put, Delete, Push};
ghost use Rattle.mvd_wire.specs.declared.reply.Reply.TheVariants.{State as Shown};
ghost use Rattle.mvd_kept.specs.Costs.{AnswerCosts, Costs, PrepareCosts};
ghost use Rattle.mvd_kept.specs.AtOnce.{AnswersRequest};
ghost use Rattle.mvd_kept.specs.FromStates.{AnswersFrom, joined_site, push_reply, unless_broken};
ghost use Rattle.mvd_kept.specs.Held.{AreHeld, IsKept, state_at};
ghost use Rattle.mvd_kept.specs.Installs.{broken_site};
ghost use Rattle.mvd_kept.specs.Known.{IsValidRequest};
ghost use Rattle.mvd_kept.specs.Prepared.{IsFrugal, IsReady, PreparesAt, PreparesFrom};
ghost use Rattle.mvd_kept.specs.Prepared.{PreparesFromStates, PreparesReply};
ghost use Rattle.mvd_kept.specs.Sites.{SiteValue};

use crate::config::Config;
use crate::held::Held;
use crate::prepared::Prepared;
use crate::work::{HeldLook, Work};
use mvd_count::Count;
use mvd_docs::Document;
use mvd_dots::{Context, Refusal};
use mvd_keys::{Key, KeyState};
use mvd_rows::Rows;
use mvd_tree::Tree;
use mvd_wire::{Reply, Request, state_length};
use std::alloc::Global;
use std::marker::Model;

/// The states of the keys that one site holds, with what is kept of them, and the answers to requests from them. What
/// answers has this and the counts that are handed in.
#[derive(Drop)]
pub struct Kept {
    pub(crate) alloc: Global,
    pub(crate) config: Config,
    pub(crate) states: Held,
    pub(crate) tree: Tree,
    pub(crate) rows: Rows,
    pub(crate) broken: bool,
}

impl Model for Kept {
    ghost use Rattle.mvd_kept.specs.Sites.{KeepsKeys, SiteValue, site_code};

    ghost Value = { SiteValue };

    ghost coded = { site_code };

    ghost view = { λ s. record { config = s.config; states = s.states; broken = s.broken } };

    ghost invariant = { λ s. KeepsKeys s.config s.states s.tree s.rows s.broken };
}

impl Kept {
    /// The allocator that it keeps.
    pub fn alloc(&self) -> Global {
        self.alloc
    }

    pub fn config(&self) -> &Config
        ensures { result.now ≡ self.now.config }
    {
        &self.config
    }

    /// What is true of all that it keeps: it holds no more keys than it may, each is one, and each state has seen a dot
    /// and has a spelling within the limit.
    pub fn stands(&self)
        ensures held { AreHeld self.now.states }
        ensures room { map.len self.now.states ≤ self.now.config.max_keys }
    {
        self.states.stands();
    }

    /// The number of keys that are held.
    pub fn key_count(&self) -> u32
        ensures count { result ≡ map.len self.now.states }
        ensures room { result ≤ self.now.config.max_keys }
        // Each key that is held is one, and each state has seen a dot and has a spelling within the limit.
        ensures held { AreHeld self.now.states }
    {
        let most = self.config.max_keys();
        self.states.stands();
        let count = self.states.len();
        prove!(count <= most as usize);
        count as u32
    }

    /// Whether an install was refused memory: the site then answers `Broken` to everything.
    pub fn is_broken(&self) -> bool
        ensures { result ≡ self.now.broken }
    {
        self.broken
    }

    /// What a request comes to, with at most one look at a held key state, or as many looks as its page has entries,
    /// and two more: of keys at held states, and else at kept rows. Nothing is changed yet, and several changes may be
    /// prepared side by side.
    pub fn prepare(&self, request: &Request, work: &mut Work) -> Result<Prepared, Refusal>
        ensures answer { PreparesAt self.now request.now result }
        ensures states { PreparesFromStates self.now request.now result }
        ensures ready { IfOk result (IsReady self.now) }
        ensures valid { IfOk result (λ _. IsValidRequest request.now) }
        ensures broken { self.now.broken ≡ true → result ≡ Err Broken }
        ensures whole { IfErr result (λ refusal. refusal ≡ Broken → self.now.broken ≡ true) }
        // A question of a node or of a row, Hello, Bye, and a push of what is held already take no memory.
        ensures frugal { IsFrugal self.now.states request.now → IfErr result (λ refusal. refusal ≢ Memory) }
        ensures costs { PrepareCosts request.now result work.old work.new }
        ensures idle { self.now.broken ≡ true → work.new ≡ work.old }
    {
        if self.broken {
            return Err(Refusal::Broken);
        }
        match request {
            Request::Get(key) => self.prepare_get(key, &mut work.looks),
            Request::Put(key, seen, document) => self.prepare_put(
                key,
                seen,
                document,
                &mut work.looks,
            ),
            Request::Delete(key, seen) => self.prepare_delete(key, seen, &mut work.looks),
            Request::Push(key, pushed) => self.prepare_push(key, pushed, &mut work.looks),
            Request::Find(field, term, after) => self.prepare_find(
                field,
                term,
                after,
                &mut work.rows,
            ),
            Request::Range(field, from, to, after) => self.prepare_range(
                field,
                from,
                to,
                after,
                &mut work.rows,
            ),
            Request::Row(view, term) => self.prepare_row(view, term, &mut work.rows),
            Request::Rows(view, after) => self.prepare_rows(view, after, &mut work.rows),
            Request::Node(path) => self.prepare_node(path),
            Request::Bucket(path, after) => self.prepare_bucket(path, after.as_ref()),
            Request::Keys(prefix, after) => {
                self.prepare_keys(prefix, after.as_ref(), &mut work.looks)
            }
            Request::Conflicts(after) => self.prepare_conflicts(after.as_ref(), &mut work.rows),
            Request::Hello(_) => Ok(Prepared::Answer(Reply::Done)),
            Request::Bye => Ok(Prepared::Answer(Reply::Done)),
        }
    }

    /// The state of a key, empty where the key is not held, by at most one look. A broken site refuses it.
    pub fn get(&self, key: &Key, work: &mut Work) -> Result<KeyState, Refusal>
        ensures whole { IfOk result (λ _. self.now.broken ≡ false) }
        ensures state { IfOk result (λ state. state ≡ state_at self.now.states key.now) }
        ensures refused { IfErr result (λ refusal. refusal ≡ unless_broken self.now.broken Broken Memory) }
        ensures costs { Costs 1 0 0 0 0 work.old work.new }
        ensures idle { self.now.broken ≡ true → work.new ≡ work.old }
    {
        if self.is_broken() {
            return Err(Refusal::Broken);
        }
        self.state_of(key, &mut work.looks)
    }

    /// How many bytes spell the state of a key, the empty one where it is not held. This is one look.
    pub fn state_bytes(&self, key: &Key, work: &mut Work) -> u64
        ensures bytes { result ≡ length (spell_state (state_at self.now.states key.now)) }
        ensures costs { Costs 1 0 0 0 0 work.old work.new }
    {
        let empty = KeyState::empty(self.alloc);
        let (_, state) = self.look(key, &empty, &mut work.looks);
        state_length(state)
    }

    /// Answers one request. A refusal other than `Broken` leaves the site as it was.
    pub fn answer(&mut self, request: &Request, work: &mut Work) -> Reply
        ensures answer { AnswersRequest self.old self.new request.now result }
        ensures costs { AnswerCosts self.old request.now result work.old work.new }
        ensures idle { self.old.broken ≡ true → work.new ≡ work.old }
    {
        match self.prepare(request, work) {
            Err(refusal) => Reply::Refused(refusal),
            Ok(Prepared::Answer(reply)) => reply,
            Ok(Prepared::Change(change)) => {
                let reply = change.reply();
                match self.install(change, work) {
                    Ok(()) => reply,
                    Err(broken) => Reply::Refused(broken),
                }
            }
        }
    }

    /// Joins a state to that of a key, as a request to push it does, without a request: done; or the first refusal that
    /// applies, after which the site is as it was, unless it is broken.
    pub fn push(&mut self, key: &Key, pushed: &KeyState, work: &mut Work) -> Result<(), Refusal>
        ensures answer { AnswersFrom self.old self.new (Push key.now pushed.now) (push_reply result) }
        ensures joined { OnOk result (self.new ≡ joined_site self.old key.now pushed.now) }
        ensures agreed { OnOk result (clashes (state_at self.old.states key.now) pushed.now ≡ false) }
        ensures clash { IfErr result (λ refusal. refusal ≡ DotClash →
            clashes (state_at self.old.states key.now) pushed.now ≡ true) }
        ensures unchanged { IfErr result (λ refusal. refusal ≢ Broken → self.new ≡ self.old) }
        // Whether it is broken, and for good.
        ensures told { IfErr result (λ refusal. refusal ≡ Broken → self.new ≡ broken_site self.old) }
        ensures stays { self.old.broken ≡ true → result ≡ Err Broken }
        // A state that was joined is that of some set of writes.
        ensures valid { OnOk result (IsValid pushed.now) }
        ensures costs { AnswerCosts self.old (Push key.now pushed.now) (push_reply result) work.old work.new }
        ensures idle { self.old.broken ≡ true → work.new ≡ work.old }
    {
        if self.is_broken() {
            return Err(Refusal::Broken);
        }
        match self.prepare_push(key, pushed, &mut work.looks) {
            Err(refusal) => Err(refusal),
            Ok(Prepared::Answer(_)) => Ok(()),
            Ok(Prepared::Change(change)) => self.install(change, work),
        }
    }

    fn prepare_get(&self, key: &Key, looks: &mut Count<HeldLook>) -> Result<Prepared, Refusal>
        ensures answer { PreparesReply (Shown (state_at self.now.states key.now)) result }
        ensures ready { IfOk result (IsReady self.now) }
        ensures whole { IfErr result (λ refusal. refusal ≢ Broken) }
        ensures looked { RoseBy 1 looks.old looks.new }
    {
        let state = self.state_of(key, looks)?;
        Ok(Prepared::Answer(Reply::State(state)))
    }

    /// The state of a key, empty where the key is not held. This is one look.
    fn state_of(&self, key: &Key, looks: &mut Count<HeldLook>) -> Result<KeyState, Refusal>
        ensures state { IfOk result (λ state. state ≡ state_at self.now.states key.now) }
        ensures kept { IfOk result IsKept }
        ensures only { IfErr result (λ refusal. refusal ≡ Memory) }
        ensures looked { RoseBy 1 looks.old looks.new }
    {
        let empty = KeyState::empty(self.alloc);
        let (_, old) = self.look(key, &empty, looks);
        old.copy(self.alloc)
    }

    fn prepare_put(
        &self,
        key: &Key,
        seen: &Context,
        document: &Document,
        looks: &mut Count<HeldLook>,
    ) -> Result<Prepared, Refusal>
        ensures answer { PreparesFrom self.now.config self.now.states (Put key.now seen.now document.now) result }
        ensures ready { IfOk result (IsReady self.now) }
        ensures whole { IfErr result (λ refusal. refusal ≢ Broken) }
        ensures looked { RoseBy 1 looks.old looks.new }
    {
        let empty = KeyState::empty(self.alloc);
        let (is_held, old) = self.look(key, &empty, looks);
        self.put_over(key, is_held, old, seen, document)
    }

    fn prepare_delete(
        &self,
        key: &Key,
        seen: &Context,
        looks: &mut Count<HeldLook>,
    ) -> Result<Prepared, Refusal>
        ensures answer { PreparesFrom self.now.config self.now.states (Delete key.now seen.now) result }
        ensures ready { IfOk result (IsReady self.now) }
        ensures whole { IfErr result (λ refusal. refusal ≢ Broken) }
        ensures looked { RoseBy 1 looks.old looks.new }
    {
        let empty = KeyState::empty(self.alloc);
        let (is_held, old) = self.look(key, &empty, looks);
        self.delete_over(key, is_held, old, seen)
    }

    /// What a push of this state to this key comes to, with at most one look at a held key state.
    fn prepare_push(
        &self,
        key: &Key,
        pushed: &KeyState,
        looks: &mut Count<HeldLook>,
    ) -> Result<Prepared, Refusal>
        ensures answer { PreparesFrom self.now.config self.now.states (Push key.now pushed.now) result }
        ensures ready { IfOk result (IsReady self.now) }
        ensures valid { IfOk result (λ _. IsValid pushed.now) }
        ensures whole { IfErr result (λ refusal. refusal ≢ Broken) }
        ensures frugal { IsFrugal self.now.states (Push key.now pushed.now) →
            IfErr result (λ refusal. refusal ≢ Memory) }
        ensures looked { RoseBy 1 looks.old looks.new }
    {
        let empty = KeyState::empty(self.alloc);
        let (is_held, old) = self.look(key, &empty, looks);
        self.push_over(key, is_held, old, pushed)
    }

    /// Whether the key is held, and its state or the empty one. This is one look.
    fn look<'a>(
        &'a self,
        key: &Key,
        empty: &'a KeyState,
        looks: &mut Count<HeldLook>,
    ) -> (bool, &'a KeyState)
        requires { empty.now ≡ empty_state }
        ensures is_held { result.0 ≡ is_some (map.get self.now.states key.now) }
        ensures state { result.1.now ≡ state_at self.now.states key.now }
        ensures kept { IsKept result.1.now }
        ensures looked { RoseBy 1 looks.old looks.new }
    {
        match self.states.get(key, looks) {
            Some(state) => (true, state),
            None => (false, empty),
        }
    }
}
