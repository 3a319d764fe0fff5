//! A session as a machine: what it asks next of each side, and what it takes of their answers. It waits for nobody.
ghost use Rattle.std.specs.Prelude.{◌≡◌, ◌⊎◌, ◌≤◌, [], cond, length, take, IfOk, IfErr, OnOk};
ghost use Rattle.mvd_peer.specs.Asking.{asked};
ghost use Rattle.mvd_sync.specs.Machines.{AsksForNext, HasNext, IsQuiet, IsStep, StageStands, Starts, TakesTold, StageWent, is_same};
ghost use Rattle.mvd_sync.specs.Machines.{wanted_at};
ghost use Rattle.mvd_sync.specs.OneTurn.{untold};
ghost use Rattle.mvd_sync.specs.Steps.{IsBoundedWindow, cut_wanted};

use crate::asked::{Step, gets_window, nodes_window, pages_window, pushes_window};
use crate::asking::Questions;
use crate::exchange::Exchange;
use crate::hearing::hear;
use crate::levels::Descent;
use crate::report::{Report, Side, SyncFault};
use crate::session::MOST_QUESTIONS;
use crate::stage::{Stage, go_far};
use crate::telling::Answers;
use crate::turn::Turn;
use mvd_dots::Refusal;
use mvd_keys::{Key, KeyState};
use mvd_peer::{Told, Window};
use std::alloc::Global;
use std::marker::Model;
use std::mem;

/// A session between two windows of questions.
#[derive(Drop)]
pub struct Machine {
    alloc: Global,
    left: Questions,
    exchange: Exchange,
    stage: Stage,
}

impl Model for Machine {
    ghost use Rattle.std.specs.Coded.{codes};
    ghost use Rattle.mvd_keys.specs.State.{state_code};
    ghost use Rattle.mvd_sync.specs.Machines.{IsFit, Machining};

    ghost Value = { Machining };

    ghost coded = { Prim.hlevel (codes, state_code) };

    ghost view = { λ m. record { left = m.left; work = m.exchange; stage = m.stage } };

    ghost invariant = { λ m. IsFit m.left m.exchange m.stage };
}

/// The pushes that are next, if it is this side's turn.
fn pushes_next(turn: &Turn, count: usize, side: Side) -> &[(Key, KeyState)]
    requires fits { length turn.now.told.items ≤ length turn.now.pairs.items }
    requires within { count ≤ length (untold turn.now) }
    ensures { result.now ≡ cond (is_same turn.now.side side) (take count (untold turn.now)) [] }
{
    match (turn.side, side) {
        (Side::Local, Side::Local) | (Side::Peer, Side::Peer) => &turn.rest()[..count],
        (Side::Local, Side::Peer) | (Side::Peer, Side::Local) => &[],
    }
}

/// What a side is asked next, where so many questions are left for it.
fn window_of(alloc: Global, stage: &Stage, left: u64, side: Side) -> Result<Option<Window>, Refusal>
    requires { StageStands stage.now }
    ensures asked { IfOk result (λ window. asked window ≡ cut_wanted left (wanted_at side stage.now)) }
    ensures bounded { IfOk result IsBoundedWindow }
    ensures memory { IfErr result (λ refusal. refusal ≡ Refusal.Memory) }
{
    match stage {
        Stage::Descends(descent) => nodes_window(alloc, descent.window(), left),
        Stage::Walks(walk) => pages_window(alloc, walk.pages(side), left),
        Stage::Meets(_, entries) => gets_window(alloc, entries, side, left),
        Stage::Carries(_, turn, count) => {
            pushes_window(alloc, pushes_next(turn, *count, side), left)
        }
        Stage::Done | Stage::Failed(_) => Ok(None),
    }
}

impl Machine {
    /// A session that asks each side no more than so many questions. The local side's site has this number, where it is
    /// known. It begins with the root.
    pub fn new(alloc: Global, number: Option<u32>, questions: u64) -> Result<Machine, SyncFault>
        requires some { 1 ≤ questions }
        requires limit { questions ≤ MOST_QUESTIONS }
        ensures begins { IfOk result (Starts number questions) }
        ensures memory { IfErr result (λ fault. fault ≡ SyncFault.Local Refusal.Memory) }
    {
        let descent = match Descent::new(alloc) {
            Ok(descent) => descent,
            Err(refusal) => return Err(SyncFault::Local(refusal)),
        };
        Ok(Machine {
            alloc,
            left: Questions {
                local: questions,
                peer: questions,
            },
            exchange: Exchange::new(alloc, number),
            stage: Stage::Descends(descent),
        })
    }

    /// What each side is asked next, or `None` where the session is done. An empty window is no question. Asked again
    /// before `take`, it is the same. A session that failed tells its fault again.
    pub fn next(&mut self) -> Result<Option<Step>, SyncFault>
        ensures next { IfOk result (HasNext self.old self.new) }
        ensures ended { IfErr result
            (λ fault. (fault ≡ SyncFault.Local Refusal.Memory) ⊎ (self.old.stage ≡ Stage.Failed fault)) }
    {
        match self.advance() {
            Ok(()) => self.step(),
            Err(fault) => Err(fault),
        }
    }

    /// Goes on as far as can be without a question.
    fn advance(&mut self) -> Result<(), SyncFault>
        ensures left { OnOk result (self.new.left ≡ self.old.left) }
        ensures went { OnOk result (StageWent self.old.work self.old.stage self.new.work self.new.stage) }
        ensures loud { OnOk result (IsQuiet self.new.stage → ⊥) }
        ensures memory { IfErr result (λ fault. fault ≡ SyncFault.Local Refusal.Memory) }
    {
        let stage = mem::replace(&mut self.stage, Stage::Done);
        match go_far(self.alloc, &mut self.exchange, stage) {
            Ok(stage) => {
                self.stage = stage;
                Ok(())
            }
            Err(refusal) => {
                self.stage = Stage::Failed(SyncFault::Local(refusal));
                Err(SyncFault::Local(refusal))
            }
        }
    }

    /// The questions that are next.
    fn step(&self) -> Result<Option<Step>, SyncFault>
        requires loud { IsQuiet self.now.stage → ⊥ }
        ensures step { IfOk result (AsksForNext self.now) }
        ensures ended { IfErr result
            (λ fault. (fault ≡ SyncFault.Local Refusal.Memory) ⊎ (self.now.stage ≡ Stage.Failed fault)) }
    {
        match &self.stage {
            Stage::Done => Ok(None),
            Stage::Failed(fault) => Err(*fault),
            _ => match self.questions() {
                Ok(step) => Ok(Some(step)),
                Err(refusal) => Err(SyncFault::Local(refusal)),
            },
        }
    }

    /// What both sides are asked.
    fn questions(&self) -> Result<Step, Refusal>
        ensures step { IfOk result (IsStep self.now) }
        ensures memory { IfErr result (λ refusal. refusal ≡ Refusal.Memory) }
    {
        Ok(Step {
            local: window_of(self.alloc, &self.stage, self.left.local, Side::Local)?,
            peer: window_of(self.alloc, &self.stage, self.left.peer, Side::Peer)?,
        })
    }

    /// Takes what the sides told that were asked: an answer for each question, in order. The questions are taken from
    /// those that are left for the side; if fewer were left than wanted, that is its 36. Answers of another kind, too
    /// few or too many, or of which a faithful side gives none, are its 33. The session then has failed.
    pub fn take(&mut self, mine: Option<Told>, theirs: Option<Told>) -> Result<(), SyncFault>
        ensures { TakesTold self.old mine theirs self.new result }
    {
        let stage = mem::replace(&mut self.stage, Stage::Done);
        let answers = Answers { mine, theirs };
        match hear(
            self.alloc,
            &mut self.left,
            &mut self.exchange,
            stage,
            answers,
        ) {
            Ok(stage) => {
                self.stage = stage;
                Ok(())
            }
            Err(fault) => {
                self.stage = Stage::Failed(fault);
                Err(fault)
            }
        }
    }

    /// What the session did so far: all of it, where `next` told that it is done.
    pub fn report(self) -> Report
        ensures keys { result.keys ≡ self.work.keys }
        ensures refused { result.refused ≡ self.work.refused }
        ensures old { result.old ≡ self.work.older }
        ensures first { result.first_refused ≡ self.work.first_refused }
    {
        self.exchange.report()
    }
}
