//! Sessions of two sides.
ghost use Rattle.std.specs.Prelude.{◌≡◌, ◌≤◌, ℕ, MatchBool, None, Ok, IfErr, IfOk, OnOk};
ghost use Rattle.mvd_sync.specs.Machines.{HasNext, Starts};
ghost use Rattle.mvd_sync.specs.Ran.{EndsAfter, EndsBy, EndsRun, IsRun, RunsTo, TakesWindow, now_at};
ghost use Rattle.mvd_sync.specs.Session.{Session};
ghost use Rattle.mvd_peer.specs.PeerSides.{sides_of};
ghost use Rattle.mvd_peer.specs.Sides.{two};
ghost use Rattle.mvd_sync.specs.declared.stage.Stage.TheVariants.{Done};

use crate::asking::ask;
use crate::machine::Machine;
use crate::report::{Report, SyncFault};
use mvd_peer::Peer;
use std::alloc::Global;

/// The most questions that a session asks a side.
pub const MOST_QUESTIONS: u64 = 10_000_000;

/// Asks both sides what is next, and takes what they say. False where nothing is: the session is done.
fn go_on<L: Peer, P: Peer>(
    machine: &mut Machine,
    local: &mut L,
    peer: &mut P,
) -> Result<bool, SyncFault>
    ensures window { IfOk result (λ more. MatchBool more
        (TakesWindow (sides_of L.Peer P.Peer) (now_at machine.old local.old peer.old)
        (now_at machine.new local.new peer.new) (Ok tt))
        (HasNext machine.old machine.new None × (local.new ≡ local.old) × (peer.new ≡ peer.old))) }
    ensures ended { IfErr result (EndsBy (sides_of L.Peer P.Peer) (now_at machine.old local.old peer.old)
        (two local.new peer.new)) }
{
    let step = match machine.next() {
        Ok(Some(step)) => step,
        Ok(None) => return Ok(false),
        Err(fault) => return Err(fault),
    };
    let mine = ask(local, step.local);
    let theirs = ask(peer, step.peer);
    match machine.take(mine, theirs) {
        Ok(()) => Ok(true),
        Err(fault) => Err(fault),
    }
}

/// Asks both sides window after window, until the session is done.
fn converse<L: Peer, P: Peer>(
    machine: &mut Machine,
    local: &mut L,
    peer: &mut P,
) -> Result<(), SyncFault>
    requires starts { (questions : ℕ) × Starts (L.number local.old) questions machine.old }
    ensures done { OnOk result ((machine.new.stage ≡ Done)
        × RunsTo (sides_of L.Peer P.Peer) (now_at machine.old local.old peer.old)
        (now_at machine.new local.new peer.new)) }
    ensures ended { IfErr result (EndsAfter (sides_of L.Peer P.Peer) (now_at machine.old local.old peer.old)
        (two local.new peer.new)) }
{
    'windows: loop {
        let more = match go_on(machine, local, peer) {
            Ok(more) => more,
            Err(fault) => return Err(fault),
        };
        if !more {
            return Ok(());
        }
    }
}

/// Compares two sides from the root, level by level, and exchanges what differs, with at most so many questions to each
/// side; one more would end it as that side's 36. Keys whose pushes are refused with 9, 10 or 11 are left. It stops at
/// any other refusal, and the pushes already made stay.
pub fn sync_within<L: Peer, P: Peer>(
    alloc: Global,
    local: &mut L,
    peer: &mut P,
    questions: u64,
) -> Result<Report, SyncFault>
    requires some { 1 ≤ questions }
    requires limit { questions ≤ MOST_QUESTIONS }
    ensures session { Session (sides_of L.Peer P.Peer) questions
        (two local.old peer.old) (two local.new peer.new) result }
    ensures ran { IfOk result (IsRun (sides_of L.Peer P.Peer) questions
        (two local.old peer.old) (two local.new peer.new)) }
    ensures ended { IfErr result (EndsRun (sides_of L.Peer P.Peer) questions
        (two local.old peer.old) (two local.new peer.new)) }
{
    let mut machine = match Machine::new(alloc, local.number(), questions) {
        Ok(machine) => machine,
        Err(fault) => return Err(fault),
    };
    match converse(&mut machine, local, peer) {
        Ok(()) => Ok(machine.report()),
        Err(fault) => Err(fault),
    }
}

/// Compares two sides from the root, and exchanges what differs, with at most `MOST_QUESTIONS` to each side.
pub fn sync<L: Peer, P: Peer>(
    alloc: Global,
    local: &mut L,
    peer: &mut P,
) -> Result<Report, SyncFault>
    ensures session { Session (sides_of L.Peer P.Peer) 10000000
        (two local.old peer.old) (two local.new peer.new) result }
    ensures ran { IfOk result (IsRun (sides_of L.Peer P.Peer) 10000000
        (two local.old peer.old) (two local.new peer.new)) }
    ensures ended { IfErr result (EndsRun (sides_of L.Peer P.Peer) 10000000
        (two local.old peer.old) (two local.new peer.new)) }
{
    sync_within(alloc, local, peer, MOST_QUESTIONS)
}
