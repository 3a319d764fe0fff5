//! What becomes of a session with what both sides told of a window.
ghost use Rattle.std.specs.Prelude.{◌≡◌, ◌≢◌, ◌<◌, ◌≤◌, List, [], cond, length, IfOk, IfErr, IfSome};
ghost use Rattle.mvd_peer.specs.PushedStates.{Each};
ghost use Rattle.mvd_sync.specs.Level.{next_nodes};
ghost use Rattle.mvd_sync.specs.Exchanges.{IsHeldByEither};
ghost use Rattle.mvd_sync.specs.declared.meetings.Meeting.{Meeting};
ghost use Rattle.mvd_sync.specs.Machines.{StageAsks, TurnBegins, CarriedOn, Descended, StageHears, HearsAt, IsFit, IsUnheard, Met, MetFirst, Pushed};
ghost use Rattle.mvd_sync.specs.Machines.{ReadBoth, StageStands, StatesHeard, TakesShares, Walked, wanted_count};
ghost use Rattle.mvd_sync.specs.Machines.{is_same, other_of, share_of};
ghost use Rattle.mvd_sync.specs.Machines.{stays, told_by_side};
ghost use Rattle.mvd_sync.specs.Meetings.{ArePlans};
ghost use Rattle.mvd_sync.specs.OneTurn.{untold};
ghost use Rattle.mvd_sync.specs.Tellings.{IsNoNode, IsNoPage, IsNodeOf, IsListingOf, IsRead, IsStateOf, never};
ghost use Rattle.mvd_sync.specs.Tellings.{nodes_told, pages_told, pushes_told, states_told, unasked_told};
ghost use Rattle.mvd_sync.specs.Walking.{pages_next, pages_of};

use crate::asking::{Questions, are_all, window};
use crate::cursor::{Entry, Listing};
use crate::exchange::Exchange;
use crate::front::{cut_at, first_of};
use crate::levels::Descent;
use crate::meetings::{Meeting, count_held, plan_all};
use crate::report::{Side, SyncFault, fault_at, other_of};
use crate::stage::{Stage, begin, settle};
use crate::telling::{
    Answers, Share, Shares, pushes_in, read_nodes, read_pages, read_states, spend, told_nothing,
};
use crate::turn::Turn;
use crate::walking::BucketWalk;
use crate::weights::WINDOW;
use mvd_dots::Refusal;
use mvd_keys::KeyState;
use mvd_peer::Told;
use std::alloc::Global;

/// How many of the pushes that are next are for a side.
fn pushes_for(turn: &Turn, count: usize, side: Side) -> usize
    ensures { result ≡ cond (is_same turn.now.side side) count 0 }
{
    match (turn.side, side) {
        (Side::Local, Side::Local) | (Side::Peer, Side::Peer) => count,
        (Side::Local, Side::Peer) | (Side::Peer, Side::Local) => 0,
    }
}

/// How many questions to a side are next.
fn wanted_of(stage: &Stage, side: Side) -> usize
    ensures { result ≡ wanted_count side stage.now }
{
    match stage {
        Stage::Descends(descent) => descent.window().len(),
        Stage::Walks(walk) => walk.pages(side).len(),
        Stage::Meets(_, entries) => count_held(entries, side),
        Stage::Carries(_, turn, count) => pushes_for(turn, *count, side),
        Stage::Done | Stage::Failed(_) => 0,
    }
}

/// A level goes down, as both sides told of its nodes.
fn hear_nodes(
    alloc: Global,
    descent: Descent,
    shares: Shares,
    answers: Answers,
) -> Result<Stage, SyncFault>
    requires high { descent.depth < 3 }
    requires short { Each (λ path. length path < 3) (next_nodes descent) }
    requires local { shares.local.wanted ≡ length (next_nodes descent) }
    requires local_most { shares.local.asked ≤ shares.local.wanted }
    requires peer { shares.peer.wanted ≡ length (next_nodes descent) }
    requires peer_most { shares.peer.asked ≤ shares.peer.wanted }
    ensures { ReadBoth (IsRead IsNodeOf IsNoNode (nodes_told answers.mine) shares.local)
        (IsRead IsNodeOf IsNoNode (nodes_told answers.theirs) shares.peer) (Descended descent) result }
{
    let mine = match read_nodes(alloc, answers.mine, shares.local) {
        Ok(nodes) => nodes,
        Err(refusal) => return Err(SyncFault::Local(refusal)),
    };
    let theirs = match read_nodes(alloc, answers.theirs, shares.peer) {
        Ok(nodes) => nodes,
        Err(refusal) => return Err(SyncFault::Peer(refusal)),
    };
    let mut descent = descent;
    match descent.take(&mine, &theirs) {
        Ok(()) => Ok(Stage::Descends(descent)),
        Err(refusal) => Err(SyncFault::Local(refusal)),
    }
}

/// The walk goes on with the pages that both sides told.
fn hear_pages(
    alloc: Global,
    walk: BucketWalk,
    exchange: &mut Exchange,
    shares: Shares,
    answers: Answers,
) -> Result<Stage, SyncFault>
    requires asks { pages_next walk.bucket walk.entry walk.rest ≢ [] }
    requires held { IfSome walk.entry IsHeldByEither }
    requires local { shares.local.wanted ≡ length (pages_of Side.Local walk) }
    requires local_most { shares.local.asked ≤ shares.local.wanted }
    requires peer { shares.peer.wanted ≡ length (pages_of Side.Peer walk) }
    requires peer_most { shares.peer.asked ≤ shares.peer.wanted }
    ensures { ReadBoth (IsRead IsListingOf IsNoPage (pages_told answers.mine) shares.local)
        (IsRead IsListingOf IsNoPage (pages_told answers.theirs) shares.peer)
        (Walked exchange.old walk exchange.new) result }
{
    let mine = match read_pages(alloc, answers.mine, shares.local) {
        Ok(pages) => pages,
        Err(refusal) => return Err(SyncFault::Local(refusal)),
    };
    let theirs = match read_pages(alloc, answers.theirs, shares.peer) {
        Ok(pages) => pages,
        Err(refusal) => return Err(SyncFault::Peer(refusal)),
    };
    go_on_with(walk, exchange, mine, theirs)
}

/// The walk goes on with these pages.
fn go_on_with(
    walk: BucketWalk,
    exchange: &mut Exchange,
    mine: Vec<Listing>,
    theirs: Vec<Listing>,
) -> Result<Stage, SyncFault>
    requires asks { pages_next walk.bucket walk.entry walk.rest ≢ [] }
    requires held { IfSome walk.entry IsHeldByEither }
    requires mine { length mine.items ≡ length (pages_of Side.Local walk) }
    requires theirs { length theirs.items ≡ length (pages_of Side.Peer walk) }
    ensures { Walked exchange.old walk exchange.new mine.items theirs.items result }
{
    let mut walk = walk;
    let found = match walk.take(mine, theirs) {
        Ok(found) => found,
        Err(fault) => return Err(fault),
    };
    match settle(exchange, walk, found) {
        Ok(stage) => Ok(stage),
        Err(refusal) => Err(SyncFault::Local(refusal)),
    }
}

/// The states of a window were told. All of its keys are met; or the first, up to one whose state a side does not hold,
/// and the others wait again.
fn hear_states(
    alloc: Global,
    exchange: &mut Exchange,
    walk: BucketWalk,
    entries: Vec<Entry>,
    shares: Shares,
    answers: Answers,
) -> Result<Stage, SyncFault>
    requires few { length entries.items ≤ 1000 }
    requires held { Each IsHeldByEither entries.items }
    ensures { StatesHeard exchange.old walk entries.items shares answers exchange.new result }
{
    match cut_at(&entries, shares, &answers) {
        Some(count) => hear_first(alloc, exchange, walk, entries, count, answers),
        None => hear_window(alloc, exchange, walk, entries, WINDOW, shares, answers),
    }
}

/// The first keys of a window are met, and the others wait again.
fn hear_first(
    alloc: Global,
    exchange: &mut Exchange,
    walk: BucketWalk,
    entries: Vec<Entry>,
    count: usize,
    answers: Answers,
) -> Result<Stage, SyncFault>
    requires few { length entries.items ≤ 1000 }
    requires held { Each IsHeldByEither entries.items }
    requires within { count ≤ length entries.items }
    ensures { MetFirst exchange.old walk entries.items count answers exchange.new result }
{
    let mut entries = entries;
    let later = match entries.split_off(count) {
        Ok(later) => later,
        Err(_) => return Err(SyncFault::Local(Refusal::Memory)),
    };
    match exchange.put_back(later) {
        Ok(()) => {}
        Err(refusal) => return Err(SyncFault::Local(refusal)),
    }
    let (shares, answers) = first_of(&entries, answers);
    hear_window(alloc, exchange, walk, entries, count, shares, answers)
}

/// It is planned what each side is to take of these keys, and the local side begins.
fn hear_window(
    alloc: Global,
    exchange: &mut Exchange,
    walk: BucketWalk,
    entries: Vec<Entry>,
    limit: usize,
    shares: Shares,
    answers: Answers,
) -> Result<Stage, SyncFault>
    requires few { length entries.items ≤ 1000 }
    requires limit { limit ≤ 1000 }
    ensures { ReadBoth (IsRead IsStateOf never (states_told answers.mine) shares.local)
        (IsRead IsStateOf never (states_told answers.theirs) shares.peer)
        (Met exchange.old walk entries.items [] limit exchange.new) result }
{
    let mine = match read_states(alloc, answers.mine, shares.local) {
        Ok(states) => states,
        Err(refusal) => return Err(SyncFault::Local(refusal)),
    };
    let theirs = match read_states(alloc, answers.theirs, shares.peer) {
        Ok(states) => states,
        Err(refusal) => return Err(SyncFault::Peer(refusal)),
    };
    exchange.weigh(limit, entries.len(), &mine, &theirs);
    match meet(alloc, exchange.number(), walk, entries, mine, theirs) {
        Ok(stage) => Ok(stage),
        Err(refusal) => Err(SyncFault::Local(refusal)),
    }
}

/// The turn of the local side, by the states that both sides gave.
fn meet(
    alloc: Global,
    number: Option<u32>,
    walk: BucketWalk,
    entries: Vec<Entry>,
    mine: Vec<KeyState>,
    theirs: Vec<KeyState>,
) -> Result<Stage, Refusal>
    ensures met { IfOk result (λ stage. (meetings : List Meeting)
        × ArePlans number entries.items mine.items theirs.items meetings × TurnBegins walk Side.Local meetings stage) }
    ensures memory { IfErr result (λ refusal. refusal ≡ Refusal.Memory) }
{
    let meetings = plan_all(alloc, number, entries, mine, theirs)?;
    begin(alloc, walk, meetings, Side::Local)
}

/// The turn of a side goes on with what it told of its pushes.
fn hear_turn(
    alloc: Global,
    walk: BucketWalk,
    turn: Turn,
    share: Share,
    told: Option<Told>,
) -> Result<Stage, Refusal>
    requires fits { length turn.told.items ≤ length turn.pairs.items }
    requires few { share.wanted ≤ length (untold turn) }
    requires most { share.asked ≤ share.wanted }
    ensures pushed { IfOk result (Pushed walk turn (pushes_told told) share) }
    ensures ended { IfErr result (IsUnheard (pushes_told told) share) }
{
    let answers = match pushes_in(alloc, told) {
        Ok(answers) => answers,
        Err(refusal) => return Err(refusal),
    };
    if answers.len() != share.asked {
        return Err(Refusal::BadBody);
    }
    let mut turn = turn;
    match turn.hear(answers) {
        Ok(()) => {}
        Err(refusal) => return Err(refusal),
    }
    match are_all(share.asked, share.wanted) {
        Ok(()) => {}
        Err(refusal) => return Err(refusal),
    }
    let count = window(turn.rest());
    Ok(Stage::Carries(walk, turn, count))
}

/// The side in turn told of its pushes; the other was asked nothing.
fn hear_side(
    alloc: Global,
    walk: BucketWalk,
    turn: Turn,
    share: Share,
    told: Option<Told>,
    other: Option<Told>,
) -> Result<Stage, SyncFault>
    requires fits { length turn.told.items ≤ length turn.pairs.items }
    requires few { share.wanted ≤ length (untold turn) }
    requires most { share.asked ≤ share.wanted }
    ensures { CarriedOn walk turn share told other result }
{
    let side = turn.side;
    match told_nothing(other) {
        Ok(()) => {}
        Err(refusal) => return Err(fault_at(other_of(side), refusal)),
    }
    match hear_turn(alloc, walk, turn, share, told) {
        Ok(stage) => Ok(stage),
        Err(refusal) => Err(fault_at(side, refusal)),
    }
}

/// The turn goes on with what both sides told.
fn hear_pushes(
    alloc: Global,
    walk: BucketWalk,
    turn: Turn,
    shares: Shares,
    answers: Answers,
) -> Result<Stage, SyncFault>
    requires fits { length turn.told.items ≤ length turn.pairs.items }
    requires few { (share_of turn.side shares).wanted ≤ length (untold turn) }
    requires most { (share_of turn.side shares).asked ≤ (share_of turn.side shares).wanted }
    ensures { CarriedOn walk turn (share_of turn.side shares) (told_by_side turn.side answers)
        (told_by_side (other_of turn.side) answers) result }
{
    match turn.side {
        Side::Local => {
            hear_side(
                alloc,
                walk,
                turn,
                shares.local,
                answers.mine,
                answers.theirs,
            )
        }
        Side::Peer => hear_side(alloc, walk, turn, shares.peer, answers.theirs, answers.mine),
    }
}

/// It stays where it is, since nothing was asked.
fn stay(stage: Stage, answers: Answers) -> Result<Stage, SyncFault>
    ensures { result ≡ stays stage (unasked_told answers.mine) (unasked_told answers.theirs) }
{
    match told_nothing(answers.mine) {
        Ok(()) => {}
        Err(refusal) => return Err(SyncFault::Local(refusal)),
    }
    match told_nothing(answers.theirs) {
        Ok(()) => Ok(stage),
        Err(refusal) => Err(SyncFault::Peer(refusal)),
    }
}

/// The shares of both sides in the window that is next.
fn share_out(left: &mut Questions, stage: &Stage) -> Shares
    ensures { TakesShares stage.now left.old left.new result }
{
    Shares {
        local: spend(&mut left.local, wanted_of(stage, Side::Local)),
        peer: spend(&mut left.peer, wanted_of(stage, Side::Peer)),
    }
}

/// The part of the session that asked goes on with the answers.
fn hear_at(
    alloc: Global,
    exchange: &mut Exchange,
    stage: Stage,
    shares: Shares,
    answers: Answers,
) -> Result<Stage, SyncFault>
    requires asks { StageAsks stage }
    requires stands { StageStands stage }
    requires local { shares.local.wanted ≡ wanted_count Side.Local stage }
    requires local_most { shares.local.asked ≤ shares.local.wanted }
    requires peer { shares.peer.wanted ≡ wanted_count Side.Peer stage }
    requires peer_most { shares.peer.asked ≤ shares.peer.wanted }
    ensures { HearsAt exchange.old stage shares answers exchange.new result }
{
    match stage {
        Stage::Descends(descent) => hear_nodes(alloc, descent, shares, answers),
        Stage::Walks(walk) => hear_pages(alloc, walk, exchange, shares, answers),
        Stage::Meets(walk, entries) => {
            hear_states(alloc, exchange, walk, entries, shares, answers)
        }
        Stage::Carries(walk, turn, _) => hear_pushes(alloc, walk, turn, shares, answers),
        Stage::Done | Stage::Failed(_) => Ok(Stage::Done),
    }
}

/// The session goes on with the answers to the window that was next, or stays where nothing was asked.
pub fn hear(
    alloc: Global,
    left: &mut Questions,
    exchange: &mut Exchange,
    stage: Stage,
    answers: Answers,
) -> Result<Stage, SyncFault>
    requires fit { IsFit left.old exchange.old stage }
    ensures { StageHears left.old exchange.old stage answers left.new exchange.new result }
{
    if !stage.asks() {
        return stay(stage, answers);
    }
    let shares = share_out(left, &stage);
    hear_at(alloc, exchange, stage, shares, answers)
}
