//! A turn of a session with a peer: whether it has one, and its step.
ghost use Rattle.std.specs.Prelude.{◌≡◌, ◌≤◌, IfOk, IfSome, IsSome, None, OnErr, false, true};
ghost use Rattle.mvd_server.specs.PeerSays.{SessionWent, sitting_of};
ghost use Rattle.mvd_server.specs.Peerings.{SwapsPlaces, count_if, has_place};

use crate::own_session::OwnSession;
use crate::peer_link::PeerLink;
use mvd_dots::Refusal;
use mvd_meet::Course;
use mvd_sync::SyncFault;

/// How far a session is. One that is done goes on no more.
#[derive(Drop)]
pub(crate) enum Went {
    /// Something is due that did not come.
    Waits,
    /// Something was asked.
    Asks,
    Done(OwnSession),
}

/// Whether there is a session that may go on at once, and has a place for that.
#[tactic(auto, using(crate::proofs::Placing::place_swaps, crate::proofs::Placing::place_rests))]
pub(crate) fn has_turn_in(
    session: &mut Option<OwnSession>,
    link: &mut PeerLink,
    now: u64,
    free: &mut usize,
) -> bool
    ensures swaps { SwapsPlaces (has_place session.old) free.old (has_place session.new) free.new }
    ensures turn { result ≡ true → has_place session.new ≡ true }
    ensures rests { has_place session.old ≡ false → free.old ≡ 0 → session.new ≡ session.old }
    ensures sits { sitting_of session.new ≡ sitting_of session.old }
    ensures far { link.new.far ≡ link.old.far }
{
    let Some(session) = session else {
        return false;
    };
    let had = session.runs;
    let is_turn = session.has_turn(&link.far, link.is_unread(), free);
    if session.runs && !had {
        link.lend(now);
    }
    is_turn
}

/// A step of a session, if there is one. One that is done is taken out.
pub(crate) fn step_of(
    session: &mut Option<OwnSession>,
    link: &mut PeerLink,
) -> Result<Went, Refusal>
    ensures place { count_if (has_place session.new) ≤ count_if (has_place session.old) }
    ensures steps { IfOk result (SessionWent (sitting_of session.old) link.old.far
        (sitting_of session.new) link.new.far) }
    // One of which a step failed is still there.
    ensures stays { OnErr result (IsSome session.old → IsSome session.new) }
{
    let Some(open) = session else {
        return Ok(Went::Waits);
    };
    match open.step(&mut link.far) {
        Ok(Course::Done) => Ok(taken(session)),
        Ok(Course::Waits) => Ok(Went::Waits),
        Ok(Course::Asks) => Ok(Went::Asks),
        Err(fault) => Err(refusal_in(fault)),
    }
}

/// The session that is there.
fn taken(session: &mut Option<OwnSession>) -> Went
    requires { IsSome session.old }
    ensures taken { IfSome session.old (λ is. result ≡ Went.Done is) }
    ensures gone { session.new ≡ None }
{
    match session.take() {
        Some(session) => Went::Done(session),
        None => Went::Waits,
    }
}

/// Why a session ended, whichever side it was.
pub(crate) fn refusal_in(fault: SyncFault) -> Refusal {
    match fault {
        SyncFault::Local(refusal) | SyncFault::Peer(refusal) => refusal,
    }
}
