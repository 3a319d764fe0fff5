//! Questions to a side, of which no more are made than were given.
ghost use Rattle.std.specs.Prelude.{◌≡◌, ◌+◌, ◌-◌, ◌<◌, ◌≤◌, ◌^◌, false, OnOk, IfOk, IfErr};
ghost use Rattle.std.specs.Prelude.{◌⊎◌, ◌++◌, All, Contains, Err, None, Some, min};
ghost use Rattle.mvd_sync.specs.Questions.{IsOfKey, IsWindow, TakesBudget, push_bytes};
ghost use Rattle.mvd_sync.specs.Steps.{IsBoundedWindow};
ghost use Rattle.mvd_peer.specs.PeerSides.{side_of};
ghost use Rattle.mvd_peer.specs.Sides.{is_of_key};
ghost use Rattle.mvd_peer.specs.Asking.{asked};
ghost use Rattle.mvd_peer.specs.Saying.{SideSays};

use crate::made::Made;
use mvd_dots::Refusal;
use mvd_keys::{Key, KeyState};
use mvd_peer::{Peer, Told, Window};
use mvd_wire::{Digests, state_length};

/// How many questions each side may still be asked.
#[derive(Clone, Copy, Debug)]
pub struct Questions {
    pub local: u64,
    pub peer: u64,
}

/// How many of so many questions are still left, which are taken.
pub fn take(left: &mut u64, wanted: usize) -> usize
    ensures { TakesBudget left.old left.new wanted result }
{
    let taken = if *left < wanted as u64 {
        *left as usize
    } else {
        wanted
    };
    *left -= taken as u64;
    taken
}

/// That as many questions were left as were wanted.
pub fn are_all(taken: usize, wanted: usize) -> Result<(), Refusal>
    ensures all { OnOk result (wanted ≤ taken) }
    ensures few { IfErr result (λ refusal. (refusal ≡ Refusal.TooManyRequests) × (taken < wanted)) }
{
    if taken < wanted {
        return Err(Refusal::TooManyRequests);
    }
    Ok(())
}

/// A node above the buckets.
#[derive(Drop)]
pub struct Node {
    pub own: [u8; 32],
    pub children: [[u8; 32]; 16],
}

/// Digests without children are of no node above the buckets.
impl Made<Digests> for Node {
    ghost is_of = { λ digests node. (node.own ≡ digests.own) × (digests.children ≡ Some node.children) };

    ghost is_none = { λ digests. digests.children ≡ None };

    fn made(answer: Digests) -> Result<Self, Refusal> {
        let own = answer.own;
        match answer.children {
            Some(children) => Ok(Node { own, children }),
            None => Err(Refusal::BadBody),
        }
    }
}

/// What a side says of a window; nothing, where it is asked none.
pub fn ask<S: Peer>(side: &mut S, window: Option<Window>) -> Option<Told>
    requires bounded { IsBoundedWindow window }
    ensures { SideSays (side_of S.Peer) (asked window) result side.old side.new }
{
    Some(side.ask(&window?))
}

/// The most bytes of pushes that are sent at once, unless it is one push.
const WINDOW_BYTES: u64 = 1_048_576;

/// How long the frame of a push is.
fn frame_length(pair: &(Key, KeyState)) -> u64
    ensures { result ≡ min (push_bytes pair.now) (2 ^ 64 - 1) }
{
    let key = pair.0.text().len() as u64;
    state_length(&pair.1).saturating_add(key).saturating_add(6)
}

/// How many of these pushes are sent at once: one, or as many of the first as are within the limit together.
pub fn window(pairs: &[(Key, KeyState)]) -> usize
    ensures { IsWindow pairs.now result }
{
    let mut bytes = 0u64;
    let mut count = 0;
    for pair in pairs {
        bytes = bytes.saturating_add(frame_length(pair));
        if bytes > WINDOW_BYTES && count > 0 {
            return count;
        }
        count += 1;
    }
    count
}

/// Adds these answers to those that were told before; one that is a refusal of more than its key ends it.
pub fn add_told(
    told: &mut Vec<Result<(), Refusal>>,
    answers: Vec<Result<(), Refusal>>,
) -> Result<(), Refusal>
    ensures added { OnOk result (told.new.items ≡ told.old.items ++ answers.items) }
    ensures of_key { OnOk result (All IsOfKey answers.items) }
    ensures other { IfErr result
        (λ refusal. (refusal ≡ Refusal.Memory) ⊎ (Contains answers.items (Err refusal) × (is_of_key refusal ≡ false))) }
{
    for answer in answers {
        told.push(of_key(answer)?)?;
    }
    Ok(())
}

/// Whether a refusal is of one key alone.
pub fn is_of_key(refusal: Refusal) -> bool
    ensures { result ≡ is_of_key refusal }
{
    matches!(
        refusal,
        Refusal::StateTooLarge | Refusal::Full | Refusal::DotClash
    )
}

/// An answer, unless it is a refusal that is not of its key alone.
fn of_key(answer: Result<(), Refusal>) -> Result<Result<(), Refusal>, Refusal>
    ensures same { IfOk result (λ told. (told ≡ answer) × IsOfKey told) }
    ensures other { IfErr result (λ refusal. (answer ≡ Err refusal) × (is_of_key refusal ≡ false)) }
{
    match answer {
        Ok(()) => Ok(Ok(())),
        Err(refusal) if is_of_key(refusal) => Ok(Err(refusal)),
        Err(refusal) => Err(refusal),
    }
}
