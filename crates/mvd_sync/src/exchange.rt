//! The exchange of keys, one window after another.
ghost use Rattle.std.specs.Prelude.{◌≡◌, ◌≤◌, ◌<◌, ◌+◌, ◌^◌, ◌++◌, ◌∷◌, ◌↔◌, ◌⊎◌, []};
ghost use Rattle.std.specs.Prelude.{IfErr, IfOk, IsTrue, OnOk, cond, drop, length, map, max, take};
ghost use Rattle.mvd_sync.specs.Weights.{next_most, weight};
ghost use Rattle.mvd_sync.specs.Exchanges.{CountsDone, IsHeldByEither};
ghost use Rattle.mvd_sync.specs.Meetings.{done_of};
ghost use Rattle.mvd_peer.specs.PushedStates.{Each};

use crate::cursor::Entry;
use crate::meetings::Meeting;
use crate::report::{Left, Report, Side};
use crate::weights::{FIRST, next_most};
use mvd_dots::Refusal;
use mvd_keys::{Key, KeyState};
use mvd_wire::Items;
use std::alloc::Global;
use std::marker::Model;

/// The most refused keys that are named.
const NAMED: usize = 100;

/// The keys that wait to be exchanged, and what was done so far.
#[derive(Drop)]
pub struct Exchange {
    alloc: Global,
    /// The number of the local site, where it is known.
    number: Option<u32>,
    waiting: Vec<Entry>,
    /// How many keys are exchanged at once.
    most: usize,
    keys: u64,
    refused: u64,
    /// Of how many keys the local state was older than what the peer saw of it.
    older: u64,
    first_refused: Vec<Left>,
}

impl Model for Exchange {
    ghost use Rattle.std.specs.Prelude.{◌≤◌, ◌+◌};
    ghost use Rattle.mvd_peer.specs.PushedStates.{Each};
    ghost use Rattle.mvd_sync.specs.Exchanges.{Exchanging, IsHeldByEither};

    ghost Value = { Exchanging };

    ghost view = { λ e. record {
      number = e.number;
      waiting = e.waiting.items;
      most = e.most;
      keys = e.keys;
      refused = e.refused;
      older = e.older;
      first_refused = e.first_refused.items;
    } };

    ghost invariant = { λ e. (e.older ≤ e.keys + e.refused) × Each IsHeldByEither e.waiting.items
        × (1 ≤ e.most) × (e.most ≤ 1000) };
}

impl Exchange {
    /// Nothing waits, and nothing was done.
    pub fn new(alloc: Global, number: Option<u32>) -> Exchange
        ensures { result ≡ record {
          number = number;
          waiting = [];
          most = 16;
          keys = 0;
          refused = 0;
          older = 0;
          first_refused = [];
        } }
    {
        Exchange {
            alloc,
            number,
            waiting: Vec::new(alloc),
            most: FIRST,
            keys: 0,
            refused: 0,
            older: 0,
            first_refused: Vec::new(alloc),
        }
    }

    /// What was done.
    pub fn report(self) -> Report
        ensures keys { result.keys ≡ self.keys }
        ensures refused { result.refused ≡ self.refused }
        ensures old { result.old ≡ self.older }
        ensures first { result.first_refused ≡ self.first_refused }
    {
        Report {
            keys: self.keys,
            refused: self.refused,
            old: self.older,
            first_refused: Items::new(self.first_refused),
        }
    }

    /// The number of the local site, where it is known.
    pub fn number(&self) -> Option<u32>
        ensures { result ≡ self.now.number }
    {
        self.number
    }

    /// The first keys that wait, as many as are exchanged at once, which are taken out.
    pub fn taken_out(&mut self) -> Result<Vec<Entry>, Refusal>
        ensures entries { IfOk result (λ entries. entries.items ≡ take self.old.most self.old.waiting) }
        ensures held { IfOk result (λ entries. Each IsHeldByEither entries.items) }
        ensures some { IfOk result (λ entries. 1 ≤ length self.old.waiting → 1 ≤ length entries.items) }
        ensures rest { OnOk result (self.new ≡ record self.old { waiting = drop self.old.most self.old.waiting }) }
        ensures number { self.new.number ≡ self.old.number }
        ensures memory { IfErr result (λ refusal. refusal ≡ Refusal.Memory) }
    {
        let count = self.most.min(self.waiting.len());
        let rest = self.waiting.split_off(count)?;
        Ok(std::mem::replace(&mut self.waiting, rest))
    }

    /// These keys wait again, before all others.
    pub fn put_back(&mut self, entries: Vec<Entry>) -> Result<(), Refusal>
        requires held { Each IsHeldByEither entries.items }
        ensures back { OnOk result
            (self.new ≡ record self.old { waiting = entries.items ++ self.old.waiting }) }
        ensures number { self.new.number ≡ self.old.number }
        ensures memory { IfErr result (λ refusal. refusal ≡ Refusal.Memory) }
    {
        let mut entries = entries;
        entries.append(&mut self.waiting)?;
        self.waiting = entries;
        Ok(())
    }

    /// One more key waits.
    pub fn wait(&mut self, entry: Entry) -> Result<(), Refusal>
        requires held { IsHeldByEither entry }
        ensures waits { OnOk result (self.new ≡ record self.old { waiting = self.old.waiting ++ entry ∷ [] }) }
        ensures number { self.new.number ≡ self.old.number }
        ensures memory { IfErr result (λ refusal. refusal ≡ Refusal.Memory) }
    {
        self.waiting.push(entry)?;
        Ok(())
    }

    /// Whether as many keys wait as are exchanged at once.
    pub fn is_full(&self) -> bool
        ensures full { IsTrue result ↔ (self.now.most ≤ length self.now.waiting) }
        ensures short { IsTrue result ⊎ (length self.now.waiting < 1000) }
    {
        self.waiting.len() >= self.most
    }

    /// How many are exchanged at once after so many, of which the sides told these states, and no more than a limit.
    pub fn weigh(&mut self, limit: usize, keys: usize, mine: &[KeyState], theirs: &[KeyState])
        requires limit { limit ≤ 1000 }
        requires keys { keys ≤ 1000 }
        ensures { self.new ≡ record self.old {
          most = next_most limit keys (max (weight mine.now) (weight theirs.now));
        } }
    {
        self.most = next_most(limit, keys, mine, theirs);
    }

    /// Counts the keys of a window, and names the first that were refused.
    pub fn tell(&mut self, meetings: Vec<Meeting>) -> Result<(), Refusal>
        requires room { self.old.keys + self.old.refused + length meetings.items < 2 ^ 64 }
        ensures adds { OnOk result (CountsDone (map done_of meetings.items) self.old self.new) }
        ensures number { self.new.number ≡ self.old.number }
        ensures memory { IfErr result (λ refusal. refusal ≡ Refusal.Memory) }
    {
        for meeting in meetings {
            self.count(meeting.key, meeting.is_old, meeting.refused)?;
        }
        Ok(())
    }

    /// Counts a key, and names it if it is among the first that were refused.
    fn count(
        &mut self,
        key: Key,
        is_old: bool,
        refused: Option<(Side, Refusal)>,
    ) -> Result<(), Refusal>
        requires room { self.old.keys + self.old.refused + 1 < 2 ^ 64 }
        ensures adds { OnOk result (CountsDone (record { key = key; is_old = is_old; refused = refused } ∷ [])
            self.old self.new) }
        ensures number { self.new.number ≡ self.old.number }
        ensures memory { IfErr result (λ refusal. refusal ≡ Refusal.Memory) }
    {
        match refused {
            None => {
                self.keys += 1;
                self.count_old(is_old);
                Ok(())
            }
            Some((side, refusal)) => {
                self.leave(Left { key, side, refusal })?;
                self.count_old(is_old);
                Ok(())
            }
        }
    }

    /// Counts a key that was refused, and names it if it is among the first.
    fn leave(&mut self, left: Left) -> Result<(), Refusal>
        requires room { self.old.keys + self.old.refused + 1 < 2 ^ 64 }
        ensures number { self.new.number ≡ self.old.number }
        ensures waiting { OnOk result (self.new.waiting ≡ self.old.waiting) }
        ensures most { OnOk result (self.new.most ≡ self.old.most) }
        ensures keys { OnOk result (self.new.keys ≡ self.old.keys) }
        ensures refused { OnOk result (self.new.refused ≡ self.old.refused + 1) }
        ensures older { OnOk result (self.new.older ≡ self.old.older) }
        ensures counted { OnOk result (self.new.older < self.new.keys + self.new.refused) }
        ensures named { OnOk result (length self.old.first_refused < 100
            → self.new.first_refused ≡ self.old.first_refused ++ left ∷ []) }
        ensures full { OnOk result (100 ≤ length self.old.first_refused
            → self.new.first_refused ≡ self.old.first_refused) }
        ensures memory { IfErr result (λ refusal. refusal ≡ Refusal.Memory) }
    {
        self.refused += 1;
        if self.first_refused.len() < NAMED {
            self.first_refused.push(left)?;
        }
        Ok(())
    }

    /// Counts a key of which the local state was older than what the peer saw of it.
    fn count_old(&mut self, is_old: bool)
        requires room { self.old.older < self.old.keys + self.old.refused }
        requires fits { self.old.keys + self.old.refused < 2 ^ 64 }
        ensures { self.new ≡ record self.old { older = self.old.older + cond is_old 1 0 } }
    {
        if is_old {
            self.older += 1;
        }
    }
}
