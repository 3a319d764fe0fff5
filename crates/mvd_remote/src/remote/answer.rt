//! What a reply to one of many questions tells.
ghost use Rattle.std.specs.Prelude.{◌≡◌, ◌⊎◌, ℕ, Bool, true, false, IfOk, IfErr, List, Ok, Option, Err, All, Contains};
ghost use Rattle.mvd_dots.specs.declared.refusals.Refusal.TheVariants.{Broken, Memory};
ghost use Rattle.mvd_wire.specs.declared.reply.Reply.{Reply};
ghost use Rattle.mvd_wire.specs.declared.reply.Reply.TheVariants.{State, Done, Digests as Told, Keys, Refused};
ghost use Rattle.mvd_wire.specs.Replies.{reply_kind};
ghost use Rattle.mvd_dots.specs.declared.refusals.Refusal.{Refusal as Cause};
ghost use Rattle.mvd_remote.specs.LinkWindows.{Collects, IsToldBy, IsOfKind, TakesEach};
ghost use Rattle.mvd_remote.specs.Links.{Link};
ghost use Rattle.mvd_remote.specs.Lines.{LeavesNothingOpen};
ghost use Rattle.mvd_peer.specs.Windows.{ForEach};

use super::refusal_in;
use mvd_dots::Refusal;
use mvd_keys::KeyState;
use mvd_peer::{Page, is_over, room_for};
use mvd_wire::{Digests, Reply};
use std::alloc::Global;

/// What an accepted question is answered with.
pub trait Answer: Sized + Drop {
    /// The reply that tells it.
    ghost as_reply: { Self → Reply };

    /// The kind byte of such replies.
    ghost of_kind: { ℕ };

    /// The kind byte of such replies.
    fn kind() -> u8
        ensures { result ≡ of_kind };

    /// Whether its reply may be given up for want of memory, since the question changes nothing.
    ghost gives_up: { Bool };

    /// Whether its reply may be given up for want of memory.
    fn gives_up() -> bool
        ensures { result ≡ gives_up };

    /// What a reply of this kind tells, or the refusal that it is.
    fn of(reply: Reply) -> Result<Self, Refusal>
        ensures told { IfOk result (λ answer. reply ≡ as_reply answer) }
        ensures refused { (reply_kind reply ≡ of_kind) ⊎ (reply_kind reply ≡ 0xEE) →
            IfErr result (λ refusal. reply ≡ Refused refusal) };
}

impl Answer for Digests {
    ghost as_reply = { λ digests. Told digests };

    ghost of_kind = { 0xA7 };

    fn kind() -> u8 {
        0xA7
    }

    ghost gives_up = { false };

    fn gives_up() -> bool {
        false
    }

    fn of(reply: Reply) -> Result<Self, Refusal> {
        match reply {
            Reply::Digests(digests) => Ok(digests),
            other => Err(refusal_in(&other)),
        }
    }
}

impl Answer for Page {
    ghost as_reply = { λ page. Keys page.0.items page.1 };

    ghost of_kind = { 0xA8 };

    fn kind() -> u8 {
        0xA8
    }

    ghost gives_up = { false };

    fn gives_up() -> bool {
        false
    }

    fn of(reply: Reply) -> Result<Self, Refusal> {
        match reply {
            Reply::Keys(keys, more) => Ok((keys.into_vec(), more)),
            other => Err(refusal_in(&other)),
        }
    }
}

impl Answer for KeyState {
    ghost as_reply = { λ state. State state };

    ghost of_kind = { 0xA1 };

    fn kind() -> u8 {
        0xA1
    }

    // Where there is no memory for a state, the others of its window are told.
    ghost gives_up = { true };

    fn gives_up() -> bool {
        true
    }

    fn of(reply: Reply) -> Result<Self, Refusal> {
        match reply {
            Reply::State(state) => Ok(state),
            other => Err(refusal_in(&other)),
        }
    }
}

impl Answer for () {
    ghost as_reply = { λ _. Done };

    ghost of_kind = { 0xA3 };

    fn kind() -> u8 {
        0xA3
    }

    ghost gives_up = { false };

    fn gives_up() -> bool {
        false
    }

    fn of(reply: Reply) -> Result<Self, Refusal> {
        match reply {
            Reply::Done => Ok(()),
            other => Err(refusal_in(&other)),
        }
    }
}

/// What a reply tells, or why it is none. A side that tells that it is broken refuses the whole window, and so does
/// want of memory for a reply that may not be given up.
fn answer_of<A: Answer>(reply: Result<Reply, Refusal>) -> Result<Result<A, Refusal>, Refusal>
    requires { IsOfKind A.of_kind reply }
    ensures told { IfOk result (IsToldBy A.as_reply reply) }
    ensures settled { IfOk result (LeavesNothingOpen A.gives_up reply) }
    ensures ended { IfErr result (λ refusal. (refusal ≡ Memory) ⊎
        ((refusal ≡ Broken) × ((reply ≡ Ok (Refused Broken)) ⊎ (reply ≡ Err Broken)))) }
{
    let answer = match reply {
        Ok(reply) => A::of(reply),
        Err(Refusal::Memory) if !A::gives_up() => return Err(Refusal::Memory),
        Err(refusal) => Err(refusal),
    };
    if is_over(&answer) {
        return Err(Refusal::Broken);
    }
    Ok(answer)
}

/// What all replies of a window tell.
pub(super) fn answers<A: Answer>(
    alloc: Global,
    replies: Vec<Result<Reply, Refusal>>,
) -> Result<Vec<Result<A, Refusal>>, Refusal>
    requires { All (IsOfKind A.of_kind) replies.items }
    ensures told { IfOk result (λ told. ForEach (IsToldBy A.as_reply) replies.items told.items) }
    ensures settled { IfOk result (λ told. ForEach (LeavesNothingOpen A.gives_up) replies.items told.items) }
    ensures ended { IfErr result (λ refusal. (refusal ≡ Memory) ⊎ ((refusal ≡ Broken) ×
        (Contains replies.items (Ok (Refused Broken)) ⊎ Contains replies.items (Err Broken)))) }
{
    let mut told = room_for(alloc, replies.len())?;
    for reply in replies {
        told.push(answer_of(reply)?)?;
    }
    Ok(told)
}

/// What all replies to a window tell that left.
pub fn collect<A: Answer>(
    alloc: Global,
    replies: Vec<Result<Reply, Refusal>>,
) -> Result<Vec<Result<A, Refusal>>, Refusal>
    requires { All (IsOfKind A.of_kind) replies.items }
    ensures collects { (nones : List (Option Cause)) (old new : Link) →
        TakesEach A.of_kind nones replies.items old new → Collects A.as_reply A.of_kind nones old new result }
    ensures told { IfOk result (λ told. ForEach (IsToldBy A.as_reply) replies.items told.items) }
    ensures ended { IfErr result (λ refusal. (refusal ≡ Memory) ⊎ ((refusal ≡ Broken) ×
        (Contains replies.items (Ok (Refused Broken)) ⊎ Contains replies.items (Err Broken)))) }
{
    answers(alloc, replies)
}
