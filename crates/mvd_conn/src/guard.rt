//! Who may come in: whoever shows a token that is known.
ghost use Rattle.std.specs.Prelude.{◌≡◌, option_copied};
ghost use Rattle.mvd_conn.specs.Guard.{guard_at, guard_by as by_pass, guard_kept, may_under, shows};
ghost use Rattle.mvd_conn.specs.declared.guard.Guard.TheVariants.{Knows};
ghost use Rattle.mvd_wire.specs.Frames.{frame_at};

use crate::passes::{Pass, Passes, shown_by};
use crate::scan::{Front, front_of};
use mvd_wire::Request;

/// What a connection has shown of which a token is asked.
#[derive(Clone, Copy)]
pub enum Guard {
    /// No token that is known.
    Asks,
    /// The token of a pass, or that comes next.
    Knows(Pass),
    /// The token of a pass that is not known any more.
    Left(Pass),
}

impl Guard {
    /// That of a pass.
    pub(crate) fn of(pass: Option<&Pass>) -> Guard
        ensures { result ≡ by_pass (option_copied pass.entry) }
    {
        match pass {
            Some(pass) => Guard::Knows(*pass),
            None => Guard::Asks,
        }
    }

    /// That of the first frame, where it came.
    pub(crate) fn at(passes: &Passes, held: &[u8]) -> Guard
        ensures { result ≡ guard_at passes.now (frame_at held.now) }
    {
        match front_of(held) {
            Front::Whole(size) => {
                let frame = &held[..size];
                Guard::of(passes.shown(frame[4], &frame[5..]))
            }
            _ => Guard::Asks,
        }
    }

    /// The same where these passes are known: one that is not there any more is left for good.
    pub(crate) fn kept(self, passes: &Passes) -> Guard
        ensures { result ≡ guard_kept passes.now self }
    {
        match self {
            Guard::Knows(pass) if !passes.has(&pass) => Guard::Left(pass),
            guard => guard,
        }
    }
}

impl Pass {
    /// Whether a frame is a Hello that shows its token.
    pub(crate) fn is_shown(&self, kind: u8, payload: &[u8]) -> bool
        ensures { result ≡ shows self.now (record { kind = kind; payload = payload.now }) }
    {
        match shown_by(kind, payload) {
            Some(token) => self.admits(token),
            None => false,
        }
    }
}

/// Whether a client may ask that, who has shown so much.
pub(crate) fn may_ask(guard: Option<&Guard>, request: &Request) -> bool
    ensures { result ≡ may_under (option_copied guard.entry) request.now }
{
    match guard {
        None => true,
        Some(Guard::Asks) => false,
        Some(Guard::Knows(pass)) | Some(Guard::Left(pass)) => pass.right.allows(request),
    }
}
