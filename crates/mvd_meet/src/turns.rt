//! The replies that came, each in its turn.
ghost use Rattle.std.specs.Prelude.{◌≡◌, All, IfErr, IfOk, List, Option};
ghost use Rattle.mvd_dots.specs.declared.refusals.Refusal.{Refusal as Cause};
ghost use Rattle.mvd_remote.specs.LinkWindows.{IsOfKind, TakesEach};
ghost use Rattle.mvd_remote.specs.Links.{Link};
ghost use Rattle.mvd_meet.specs.Inboxes.{TellsReplies};
ghost use Rattle.mvd_meet.specs.Posts.{EndsTurns, LeavesTurn, TellsBy, has_turns, kind_of};
ghost use Rattle.mvd_meet.specs.Turns.{EndsWith, TurnsAt};

use crate::asked::Sort;
use mvd_conn::{Front, front_of};
use mvd_dots::Refusal;
use mvd_frames::decode_reply;
use mvd_peer::Told;
use mvd_remote::collect;
use mvd_wire::Reply;
use std::alloc::Global;

/// What bytes hold for a request whose turn it is.
pub enum Turn {
    /// No whole frame.
    Waits,
    /// Its reply, in so many bytes; or a refusal in place of its frame, and no byte.
    Told(Result<Reply, Refusal>, usize),
    /// In so many bytes what is no reply to it.
    Breaks(Refusal, usize),
}

/// Looks for the reply to a request, which is of this kind or a refusal.
pub fn turn_at(alloc: Global, none: Option<Refusal>, kind: u8, bytes: &[u8]) -> Turn
    ensures { TurnsAt kind none bytes.now result }
{
    if let Some(refusal) = none {
        return Turn::Told(Err(refusal), 0);
    }
    let Front::Whole(size) = front_of(bytes) else {
        return Turn::Waits;
    };
    let frame = &bytes[..size];
    let came = frame[4];
    if came != kind && came != 0xEE {
        return Turn::Breaks(Refusal::BadKind, size);
    }
    match decode_reply(alloc, came, &frame[5..]) {
        Ok(reply) => Turn::Told(Ok(reply), size),
        Err(refusal) => {
            if refusal.number() < 30 {
                return Turn::Told(Err(refusal), size);
            }
            Turn::Breaks(refusal, size)
        }
    }
}

/// Why no more is read of a link: it refused before, or what is due will not come whole.
pub fn end_of(refused: Option<Refusal>, failed: bool, bytes: &[u8]) -> Refusal
    ensures { EndsWith refused bytes.now result }
{
    if let Some(refusal) = refused {
        return refusal;
    }
    match front_of(bytes) {
        Front::TooLong => Refusal::FrameTooLong,
        Front::Part if !failed => Refusal::Truncated,
        Front::Part | Front::Whole(_) => Refusal::ReadFailed,
    }
}

/// The kind byte of the replies to a window.
pub fn kind_of(sort: Sort) -> u8
    ensures { result ≡ kind_of sort }
{
    match sort {
        Sort::Nodes => 0xA7,
        Sort::Pages => 0xA8,
        Sort::States => 0xA1,
        Sort::Pushes => 0xA3,
    }
}

/// Whether a whole frame came for each request that has one. What is no frame comes in place of all that are left.
pub fn has_turns(nones: &[Option<Refusal>], bytes: &[u8]) -> bool
    ensures { result ≡ has_turns nones.now bytes.now }
{
    let mut rest = bytes;
    for none in nones {
        match turn_in(*none, rest) {
            Ok(left) => rest = left,
            Err(all) => return all,
        }
    }
    true
}

/// What is left of the bytes behind the reply to a request; or, where its frame is not there, whether nothing more is
/// waited for.
fn turn_in(none: Option<Refusal>, bytes: &[u8]) -> Result<&[u8], bool>
    ensures left { IfOk result (λ left. LeavesTurn none bytes.now left.now) }
    ensures ends { IfErr result (λ all. EndsTurns none bytes.now all) }
{
    if none.is_some() {
        return Ok(bytes);
    }
    match front_of(bytes) {
        Front::Whole(size) => Ok(&bytes[size..]),
        Front::Part => Err(false),
        Front::TooLong => Err(true),
    }
}

/// What the replies to a window tell.
pub fn told_in(alloc: Global, sort: Sort, replies: Vec<Result<Reply, Refusal>>) -> Told
    requires { All (IsOfKind (kind_of sort)) replies.items }
    ensures turns { (nones : List (Option Cause)) (old new : Link) →
        TakesEach (kind_of sort) nones replies.items old new → TellsBy sort nones old new result }
    ensures told { TellsReplies sort replies.items result }
{
    match sort {
        Sort::Nodes => match collect(alloc, replies) {
            Ok(answers) => Told::Nodes(answers),
            Err(refusal) => Told::Refused(refusal),
        },
        Sort::Pages => match collect(alloc, replies) {
            Ok(answers) => Told::Pages(answers),
            Err(refusal) => Told::Refused(refusal),
        },
        Sort::States => match collect(alloc, replies) {
            Ok(answers) => Told::States(answers),
            Err(refusal) => Told::Refused(refusal),
        },
        Sort::Pushes => match collect(alloc, replies) {
            Ok(answers) => Told::Pushes(answers),
            Err(refusal) => Told::Refused(refusal),
        },
    }
}
