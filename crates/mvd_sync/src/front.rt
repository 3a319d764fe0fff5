//! How many keys of a window are met at once: those before the first of which a side does not hold the state.
ghost use Rattle.std.specs.Prelude.{◌≡◌, ◌↔◌, ℕ, List, IfNone, IfSome, IsTrue};
ghost use Rattle.mvd_sync.specs.Fronts.{IsCut, IsWhole, StateAnswer, front, front_told, lacks, share_in, told_first};
ghost use Rattle.mvd_sync.specs.Meetings.{rest_if};
ghost use Rattle.mvd_sync.specs.Tellings.{states_told};

use crate::cursor::Entry;
use crate::meetings::count_held;
use crate::report::Side;
use crate::telling::{Answers, Share, Shares};
use mvd_dots::Refusal;
use mvd_keys::KeyState;
use mvd_peer::Told;

/// Whether the first of the answers is that its state is not held, if one is wanted.
fn lacks(is_wanted: bool, answers: &[Result<KeyState, Refusal>]) -> bool
    ensures { result ≡ lacks is_wanted answers.now }
{
    is_wanted && matches!(answers.first(), Some(Err(Refusal::Memory)))
}

/// The answers behind the first, if that was wanted.
fn rest_if(is_wanted: bool, answers: &[Result<KeyState, Refusal>]) -> &[Result<KeyState, Refusal>]
    ensures { result.now ≡ rest_if is_wanted answers.now }
{
    if is_wanted && !answers.is_empty() {
        return &answers[1..];
    }
    answers
}

/// How many of these keys come before the first of which a side does not hold the state.
fn front(
    entries: &[Entry],
    mine: &[Result<KeyState, Refusal>],
    theirs: &[Result<KeyState, Refusal>],
) -> usize
    ensures { result ≡ front entries.now mine.now theirs.now }
{
    let mut mine = mine;
    let mut theirs = theirs;
    let mut count = 0;
    for entry in entries {
        if lacks(entry.mine, mine) || lacks(entry.theirs, theirs) {
            return count;
        }
        mine = rest_if(entry.mine, mine);
        theirs = rest_if(entry.theirs, theirs);
        count += 1;
    }
    count
}

/// The answers that a side told to its gets, if they are as many as were wanted.
fn whole(told: &Option<Told>, share: Share) -> Option<&[Result<KeyState, Refusal>]>
    ensures some { IfSome result (λ answers. IsWhole told.now share answers.now) }
    ensures none { IfNone result ((answers : List StateAnswer) → IsWhole told.now share answers → ⊥) }
{
    match told {
        Some(Told::States(answers)) if is_whole(answers.len(), share) => Some(answers),
        None if is_whole(0, share) => Some(&[]),
        _ => None,
    }
}

/// Whether so many answers are as many as were asked for and wanted.
fn is_whole(count: usize, share: Share) -> bool
    ensures { IsTrue result ↔ ((count ≡ share.asked) × (share.asked ≡ share.wanted)) }
{
    count == share.asked && share.asked == share.wanted
}

/// Behind how many keys a window is cut, if it is.
pub fn cut_at(entries: &[Entry], shares: Shares, answers: &Answers) -> Option<usize>
    ensures some { IfSome result (IsCut entries.now shares answers.now) }
    ensures none { IfNone result ((count : ℕ) → IsCut entries.now shares answers.now count → ⊥) }
{
    let Some(mine) = whole(&answers.mine, shares.local) else {
        return None;
    };
    let Some(theirs) = whole(&answers.theirs, shares.peer) else {
        return None;
    };
    let count = front(entries, mine, theirs);
    if count == 0 || count == entries.len() {
        return None;
    }
    Some(count)
}

/// The first of the answers that a side told.
fn first_told(told: Option<Told>, count: usize) -> Option<Told>
    ensures { states_told result ≡ told_first count (states_told told) }
{
    match told {
        Some(Told::States(answers)) => {
            let mut answers = answers;
            answers.truncate(count);
            Some(Told::States(answers))
        }
        told => told,
    }
}

/// The share of a side in a window of these keys alone.
fn share_in(side: Side, entries: &[Entry]) -> Share
    ensures { result ≡ share_in side entries.now }
{
    let count = count_held(entries, side);
    Share {
        asked: count,
        wanted: count,
    }
}

/// The shares and the answers of a window of these keys, which are the first of those that were asked for.
pub fn first_of(entries: &[Entry], answers: Answers) -> (Shares, Answers)
    ensures local { result.0.local ≡ share_in Side.Local entries.now }
    ensures peer { result.0.peer ≡ share_in Side.Peer entries.now }
    ensures mine { states_told result.1.mine ≡ front_told Side.Local entries.now answers.mine }
    ensures theirs { states_told result.1.theirs ≡ front_told Side.Peer entries.now answers.theirs }
{
    let local = share_in(Side::Local, entries);
    let peer = share_in(Side::Peer, entries);
    let mine = first_told(answers.mine, local.wanted);
    let theirs = first_told(answers.theirs, peer.wanted);
    (Shares { local, peer }, Answers { mine, theirs })
}
