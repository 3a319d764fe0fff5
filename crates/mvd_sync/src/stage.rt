//! How far a session has come between two windows of questions: a value that knows no side.
ghost use Rattle.std.specs.Prelude.{◌≡◌, ◌↔◌, ◌+◌, ◌<◌, ◌^◌, [], length, IsTrue, IfOk, IfErr, IfSome};
ghost use Rattle.mvd_sync.specs.Exchanges.{IsHeldByEither};
ghost use Rattle.mvd_sync.specs.Machines.{StageAsks, TurnBegins, FromTurn, FromWalk, GoesAlone, HasRoomLeft, IsQuiet, SettlesFound, StageWent};
ghost use Rattle.mvd_sync.specs.Walking.{pages_next};

use crate::asking::window;
use crate::cursor::Entry;
use crate::exchange::Exchange;
use crate::levels::Descent;
use crate::meetings::Meeting;
use crate::report::{Side, SyncFault};
use crate::turn::Turn;
use crate::walking::BucketWalk;
use mvd_dots::Refusal;
use std::alloc::Global;

/// What is asked next.
#[derive(Drop)]
pub enum Stage {
    /// The nodes of a level.
    Descends(Descent),
    /// Pages of buckets that differ, where the walk over these wants some.
    Walks(BucketWalk),
    /// The states of these keys, which differ.
    Meets(BucketWalk, Vec<Entry>),
    /// That a side takes so many of the pushes that are left for it of the keys of a window.
    Carries(BucketWalk, Turn, usize),
    /// Nothing: the session is done.
    Done,
    /// Nothing: it ended by this fault.
    Failed(SyncFault),
}

impl Stage {
    /// Whether it goes on without a question.
    pub fn is_quiet(&self) -> bool
        ensures { IsTrue result ↔ IsQuiet self.now }
    {
        match self {
            Stage::Descends(descent) => descent.is_done(),
            Stage::Walks(walk) => !walk.asks(),
            Stage::Carries(_, turn, _) => !turn.has_more(),
            Stage::Meets(_, _) | Stage::Done | Stage::Failed(_) => false,
        }
    }

    /// Whether a side is asked something.
    pub fn asks(&self) -> bool
        ensures { IsTrue result ↔ StageAsks self.now }
    {
        match self {
            Stage::Descends(descent) => !descent.is_done(),
            Stage::Walks(walk) => walk.asks(),
            Stage::Carries(_, turn, _) => turn.has_more(),
            Stage::Meets(_, _) => true,
            Stage::Done | Stage::Failed(_) => false,
        }
    }
}

/// The walk goes on after a key that it told. One that differs waits, and the first that wait are exchanged when they
/// are as many as are exchanged at once.
pub fn settle(
    exchange: &mut Exchange,
    walk: BucketWalk,
    found: Option<Entry>,
) -> Result<Stage, Refusal>
    requires held { IfSome found IsHeldByEither }
    ensures settles { IfOk result (SettlesFound walk found exchange.old exchange.new) }
    ensures memory { IfErr result (λ refusal. refusal ≡ Refusal.Memory) }
{
    let Some(entry) = found else {
        return Ok(Stage::Walks(walk));
    };
    if !entry.differs {
        return Ok(Stage::Walks(walk));
    }
    exchange.wait(entry)?;
    if exchange.is_full() {
        let entries = exchange.taken_out()?;
        return Ok(Stage::Meets(walk, entries));
    }
    Ok(Stage::Walks(walk))
}

/// A side is to take what it lacks of the keys of a window.
pub fn begin(
    alloc: Global,
    walk: BucketWalk,
    meetings: Vec<Meeting>,
    side: Side,
) -> Result<Stage, Refusal>
    ensures begins { IfOk result (TurnBegins walk side meetings.items) }
    ensures memory { IfErr result (λ refusal. refusal ≡ Refusal.Memory) }
{
    let turn = Turn::new(alloc, meetings, side)?;
    let count = window(turn.rest());
    Ok(Stage::Carries(walk, turn, count))
}

/// The walk goes on to its next key. After the last the keys that wait are exchanged, and then the session is done.
fn after_walk(exchange: &mut Exchange, walk: BucketWalk) -> Result<Stage, Refusal>
    requires quiet { pages_next walk.bucket walk.entry walk.rest ≡ [] }
    ensures goes { IfOk result (FromWalk exchange.old walk exchange.new) }
    ensures memory { IfErr result (λ refusal. refusal ≡ Refusal.Memory) }
{
    if !walk.is_done() {
        let mut walk = walk;
        let found = walk.next()?;
        return settle(exchange, walk, found);
    }
    let entries = exchange.taken_out()?;
    if entries.is_empty() {
        return Ok(Stage::Done);
    }
    Ok(Stage::Meets(walk, entries))
}

/// After the local side the peer takes, and after the peer the keys are counted and the walk goes on.
fn after_turn(
    alloc: Global,
    exchange: &mut Exchange,
    walk: BucketWalk,
    turn: Turn,
) -> Result<Stage, Refusal>
    requires room { exchange.old.keys + exchange.old.refused + length turn.meetings.items < 2 ^ 64 }
    ensures goes { IfOk result (FromTurn exchange.old walk turn exchange.new) }
    ensures memory { IfErr result (λ refusal. refusal ≡ Refusal.Memory) }
{
    let side = turn.side;
    let meetings = turn.end()?;
    match side {
        Side::Local => begin(alloc, walk, meetings, Side::Peer),
        Side::Peer => {
            exchange.tell(meetings)?;
            Ok(Stage::Walks(walk))
        }
    }
}

/// Goes on by one step without a question.
fn go_on(alloc: Global, exchange: &mut Exchange, stage: Stage) -> Result<Stage, Refusal>
    requires quiet { IsQuiet stage }
    requires room { HasRoomLeft exchange.old stage }
    ensures goes { IfOk result (GoesAlone exchange.old stage exchange.new) }
    ensures memory { IfErr result (λ refusal. refusal ≡ Refusal.Memory) }
{
    match stage {
        Stage::Descends(descent) => Ok(Stage::Walks(BucketWalk::new(alloc, descent.buckets())?)),
        Stage::Walks(walk) => after_walk(exchange, walk),
        Stage::Carries(walk, turn, _) => after_turn(alloc, exchange, walk, turn),
        stage => Ok(stage),
    }
}

/// Goes on as far as can be without a question.
pub fn go_far(alloc: Global, exchange: &mut Exchange, stage: Stage) -> Result<Stage, Refusal>
    requires room { IsQuiet stage → HasRoomLeft exchange.old stage }
    ensures went { IfOk result (StageWent exchange.old stage exchange.new) }
    ensures loud { IfOk result (λ after. IsQuiet after → ⊥) }
    ensures memory { IfErr result (λ refusal. refusal ≡ Refusal.Memory) }
{
    let mut stage = stage;
    while stage.is_quiet() {
        let next = go_on(alloc, exchange, stage)?;
        stage = next;
    }
    Ok(stage)
}
