//! A side's turn to take what it is to take of the keys of a window.
ghost use Rattle.std.specs.Prelude.{◌≡◌, ◌⊎◌, ◌↔◌, ◌<◌, ◌≤◌, ◌++◌, length, All, Contains, Err};
ghost use Rattle.std.specs.Prelude.{false, IfOk, IfErr, IsTrue, OnOk};
ghost use Rattle.mvd_peer.specs.Sides.{is_of_key};
ghost use Rattle.mvd_sync.specs.Meetings.{noted};
ghost use Rattle.mvd_sync.specs.Questions.{IsOfKey};
ghost use Rattle.mvd_sync.specs.OneTurn.{BeginsTurn, IsSameTurn, untold};

use crate::asking::add_told;
use crate::meetings::{Meeting, note, taken};
use crate::report::Side;
use mvd_dots::Refusal;
use mvd_keys::{Key, KeyState};
use std::alloc::Global;

/// A turn between two windows of pushes: what the side is to take, and what it told of the first of these.
#[derive(Drop)]
pub struct Turn {
    pub alloc: Global,
    pub side: Side,
    pub meetings: Vec<Meeting>,
    pub pairs: Vec<(Key, KeyState)>,
    pub told: Vec<Result<(), Refusal>>,
}

impl Turn {
    /// It begins with all that the side is to take of these keys.
    pub fn new(alloc: Global, meetings: Vec<Meeting>, side: Side) -> Result<Turn, Refusal>
        ensures begins { IfOk result (BeginsTurn side meetings.items) }
        ensures memory { IfErr result (λ refusal. refusal ≡ Refusal.Memory) }
    {
        let (meetings, pairs) = taken(alloc, meetings, side)?;
        let told = Vec::with_capacity(alloc, pairs.len())?;
        Ok(Turn {
            alloc,
            side,
            meetings,
            pairs,
            told,
        })
    }

    /// Whether the side is still to take something.
    pub fn has_more(&self) -> bool
        ensures { IsTrue result ↔ (length self.now.told.items < length self.now.pairs.items) }
    {
        self.told.len() < self.pairs.len()
    }

    /// What the side is still to take.
    pub fn rest(&self) -> &[(Key, KeyState)]
        requires { length self.now.told.items ≤ length self.now.pairs.items }
        ensures { result.now ≡ untold self.now }
    {
        &self.pairs[self.told.len()..]
    }

    /// Hears what the side told of the next of these; a refusal of more than its key ends the turn.
    pub fn hear(&mut self, answers: Vec<Result<(), Refusal>>) -> Result<(), Refusal>
        ensures told { OnOk result (self.new.told.items ≡ self.old.told.items ++ answers.items) }
        ensures same { IsSameTurn self.old self.new }
        ensures of_key { OnOk result (All IsOfKey answers.items) }
        ensures other { IfErr result
            (λ refusal. (refusal ≡ Refusal.Memory)
            ⊎ (Contains answers.items (Err refusal) × (is_of_key refusal ≡ false))) }
    {
        add_told(&mut self.told, answers)
    }

    /// The keys after the turn: which of them the side refused.
    pub fn end(self) -> Result<Vec<Meeting>, Refusal>
        ensures noted { IfOk result (λ r. r.items ≡ noted self.side self.meetings.items self.told.items) }
        ensures memory { IfErr result (λ refusal. refusal ≡ Refusal.Memory) }
    {
        note(self.alloc, self.meetings, self.side, self.told)
    }
}
