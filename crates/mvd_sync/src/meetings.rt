//! The keys of a window: what each side is to take of them, and how they were refused.
ghost use Rattle.std.specs.Prelude.{◌≡◌, length, map, filter_map, IfOk, OnOk, IfErr, None, Some, false, option_map, ◌++◌};
ghost use Rattle.std.specs.Prelude.{[]};
ghost use Rattle.std.specs.List.{cons_option};
ghost use Rattle.mvd_sync.specs.Meetings.{ArePlans, IsPlan, first_if, held_keys, is_held, noted, pushed_pair, rest_if};
ghost use Rattle.mvd_sync.specs.Meetings.{taken_from, wanted};

use crate::cursor::Entry;
use crate::old::has_unseen;
use crate::report::Side;
use mvd_dots::Refusal;
use mvd_keys::{Key, KeyState};
use std::alloc::Global;
use std::collections::VecDeque;

/// A key of a window.
#[derive(Drop)]
pub struct Meeting {
    pub key: Key,
    pub is_old: bool,
    /// The peer's state, which the local side is to take.
    pub pull: Option<KeyState>,
    /// The local state, which the peer is to take, where it lacks something of it.
    pub give: Option<KeyState>,
    /// Whether a state was taken out, for the side in turn.
    pub asked: bool,
    /// By which side it was refused, and how.
    pub refused: Option<(Side, Refusal)>,
}

/// Whether a side holds a key, as its page told.
fn is_held(entry: &Entry, side: Side) -> bool
    ensures { result ≡ is_held side entry.now }
{
    match side {
        Side::Local => entry.mine,
        Side::Peer => entry.theirs,
    }
}

/// The keys of a window that a side holds, as its page told.
pub fn keys_held(alloc: Global, entries: &[Entry], side: Side) -> Result<Vec<Key>, Refusal>
    ensures held { IfOk result (λ keys. keys.items ≡ held_keys side entries.now) }
    ensures memory { IfErr result (λ refusal. refusal ≡ Refusal.Memory) }
{
    let mut keys = Vec::with_capacity(alloc, entries.len())?;
    for entry in entries {
        if is_held(entry, side) {
            keys.push(entry.key.copy(alloc)?)?;
        }
    }
    Ok(keys)
}

/// How many of the keys of a window a side holds, as its page told.
pub fn count_held(entries: &[Entry], side: Side) -> usize
    ensures { result ≡ length (held_keys side entries.now) }
{
    let mut count = 0;
    for entry in entries {
        if is_held(entry, side) {
            count += 1;
        }
    }
    count
}

/// What is to be done for a key that both sides hold. States that clash are refused at the local side.
fn meet(
    alloc: Global,
    key: Key,
    is_old: bool,
    mine: KeyState,
    theirs: KeyState,
) -> Result<Meeting, Refusal>
    ensures plan { IfOk result (IsPlan key is_old (Some mine) (Some theirs)) }
    ensures memory { IfErr result (λ refusal. refusal ≡ Refusal.Memory) }
{
    let _mine = mine.context();
    let _theirs = theirs.context();
    match mine.join(alloc, &theirs) {
        Ok(joined) => Ok(Meeting {
            key,
            is_old,
            give: if joined.same(&theirs) {
                None
            } else {
                Some(mine)
            },
            pull: Some(theirs),
            asked: false,
            refused: None,
        }),
        Err(Refusal::DotClash) => Ok(Meeting {
            key,
            is_old,
            pull: None,
            give: None,
            asked: false,
            refused: Some((Side::Local, Refusal::DotClash)),
        }),
        Err(refusal) => Err(refusal),
    }
}

/// What is to be done for a key that one side holds: the other is to take its state.
fn hand_over(key: Key, is_old: bool, pull: Option<KeyState>, give: Option<KeyState>) -> Meeting
    ensures { result ≡ record { key = key; is_old = is_old; pull = pull; give = give; asked = false; refused = None } }
{
    Meeting {
        key,
        is_old,
        pull,
        give,
        asked: false,
        refused: None,
    }
}

/// What is to be done for a key, by what the two sides have of it.
fn plan(
    alloc: Global,
    key: Key,
    is_old: bool,
    mine: Option<KeyState>,
    theirs: Option<KeyState>,
) -> Result<Meeting, Refusal>
    ensures plan { IfOk result (IsPlan key is_old mine theirs) }
    ensures memory { IfErr result (λ refusal. refusal ≡ Refusal.Memory) }
{
    match (mine, theirs) {
        (Some(mine), Some(theirs)) => meet(alloc, key, is_old, mine, theirs),
        (Some(mine), None) => {
            let _seen = mine.context();
            Ok(hand_over(key, is_old, None, Some(mine)))
        }
        (None, Some(theirs)) => {
            let _seen = theirs.context();
            Ok(hand_over(key, is_old, Some(theirs), None))
        }
        (None, None) => Ok(hand_over(key, is_old, None, None)),
    }
}

/// The next of some states, if one is wanted.
fn next_if(is_wanted: bool, states: &mut VecDeque<KeyState>) -> Option<KeyState>
    ensures first { result ≡ first_if is_wanted states.old.items }
    ensures rest { states.new.items ≡ rest_if is_wanted states.old.items }
{
    if is_wanted { states.pop_front() } else { None }
}

/// What is to be done for these keys, where the states that each side holds come in their order.
pub fn plan_all(
    alloc: Global,
    number: Option<u32>,
    entries: Vec<Entry>,
    mine: Vec<KeyState>,
    theirs: Vec<KeyState>,
) -> Result<Vec<Meeting>, Refusal>
    ensures plans { IfOk result (λ meetings. ArePlans number entries.items mine.items theirs.items meetings.items) }
    ensures memory { IfErr result (λ refusal. refusal ≡ Refusal.Memory) }
{
    let mut meetings = Vec::with_capacity(alloc, entries.len())?;
    let mut entries = VecDeque::from(entries);
    let mut mine = VecDeque::from(mine);
    let mut theirs = VecDeque::from(theirs);
    while let Some(entry) = entries.pop_front() {
        let own = next_if(entry.mine, &mut mine);
        let other = next_if(entry.theirs, &mut theirs);
        let is_old = has_unseen(number, own.as_ref(), other.as_ref());
        meetings.push(plan(alloc, entry.key, is_old, own, other)?)?;
    }
    Ok(meetings)
}

/// Takes out what a side is to take of a key. It takes nothing of one that was refused.
fn take_out(meeting: &mut Meeting, side: Side) -> Option<KeyState>
    ensures wanted { result ≡ wanted side meeting.old }
    ensures taken { meeting.new ≡ taken_from side meeting.old }
{
    let state = match side {
        Side::Local => meeting.pull.take(),
        Side::Peer => meeting.give.take(),
    };
    let wanted = if meeting.refused.is_some() {
        None
    } else {
        state
    };
    meeting.asked = wanted.is_some();
    wanted
}

/// Adds a key with a state, if there is one.
fn add_pair(
    alloc: Global,
    pairs: &mut Vec<(Key, KeyState)>,
    key: &Key,
    state: Option<KeyState>,
) -> Result<(), Refusal>
    ensures added { OnOk result
        (pairs.new.items ≡ pairs.old.items ++ cons_option (option_map (λ s. (key.now, s)) state) []) }
    ensures memory { IfErr result (λ refusal. refusal ≡ Refusal.Memory) }
{
    if let Some(state) = state {
        pairs.push((key.copy(alloc)?, state))?;
    }
    Ok(())
}

/// The keys of a window, and what a side is to take of them, which is taken out.
pub fn taken(
    alloc: Global,
    meetings: Vec<Meeting>,
    side: Side,
) -> Result<(Vec<Meeting>, Vec<(Key, KeyState)>), Refusal>
    ensures meetings { IfOk result (λ r. r.0.items ≡ map (taken_from side) meetings.items) }
    ensures pairs { IfOk result (λ r. r.1.items ≡ filter_map (pushed_pair side) meetings.items) }
    ensures memory { IfErr result (λ refusal. refusal ≡ Refusal.Memory) }
{
    let mut asked = Vec::with_capacity(alloc, meetings.len())?;
    let mut pairs = Vec::with_capacity(alloc, meetings.len())?;
    for meeting in meetings {
        let mut meeting = meeting;
        let state = take_out(&mut meeting, side);
        add_pair(alloc, &mut pairs, &meeting.key, state)?;
        asked.push(meeting)?;
    }
    Ok((asked, pairs))
}

/// What a side told of a key, if it was asked.
fn next_told(
    is_asked: bool,
    told: &mut VecDeque<Result<(), Refusal>>,
) -> Option<Result<(), Refusal>>
    ensures first { result ≡ first_if is_asked told.old.items }
    ensures rest { told.new.items ≡ rest_if is_asked told.old.items }
{
    if is_asked { told.pop_front() } else { None }
}

/// The keys of a window after a side took of them: which of them it refused. Its answers are of
/// those asked, in their order.
pub fn note(
    alloc: Global,
    meetings: Vec<Meeting>,
    side: Side,
    told: Vec<Result<(), Refusal>>,
) -> Result<Vec<Meeting>, Refusal>
    ensures noted { IfOk result (λ r. r.items ≡ noted side meetings.items told.items) }
    ensures memory { IfErr result (λ refusal. refusal ≡ Refusal.Memory) }
{
    let mut after = Vec::with_capacity(alloc, meetings.len())?;
    let mut meetings = VecDeque::from(meetings);
    let mut told = VecDeque::from(told);
    while let Some(meeting) = meetings.pop_front() {
        let mut meeting = meeting;
        if let Some(Err(refusal)) = next_told(meeting.asked, &mut told) {
            meeting.refused = Some((side, refusal));
        }
        after.push(meeting)?;
    }
    Ok(after)
}
