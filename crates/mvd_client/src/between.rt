//! A session of two servers, each at the other end of a line that its address leads to, and what is told of it.
ghost use Rattle.std.specs.Prelude.{◌≡◌, [], option_copied};
ghost use Rattle.mvd_client.specs.Between.{EndsSession, GivesRoot, GoesOn, MeetsServers, Parts, StopsBetween};
ghost use Rattle.mvd_client.specs.Between.{TellsThenParts};
ghost use Rattle.mvd_client.specs.Gone.{LetsGo};
ghost use Rattle.mvd_client.specs.declared.gone.Gone.{Gone};

use crate::dial::{Dial, let_in, undialed};
use crate::gone::Gone;
use crate::meeting::{Root, meet_over, root_over, tell_meeting};
use crate::progress::Watched;
use mvd_dots::Refusal;
use mvd_hint::Stop;
use mvd_remote::{Line, Remote};
use mvd_sync::{Report, SyncFault};
use mvd_wire::Token;
use std::alloc::Global;
use std::io::Write;
use std::net::SocketAddr;

/// The most times that a session goes on over new lines.
const MOST_ANEW: u32 = 8;

/// The states behind which a line that is cut is taken for one over which a server takes no more: that is 1,000,000
/// frames.
const MANY: u64 = 250_000;

/// How two servers meet: how many seconds a server may be silent, the token that is shown to each of them, and whether
/// it is told how far the session is.
#[derive(Clone, Copy)]
pub struct MeetingTerms<'a> {
    pub idle: u32,
    pub token: Option<&'a Token>,
    pub verbose: bool,
}

/// What is at the other ends of the lines behind a session that ended well, and its report.
#[derive(Drop)]
struct Met<L: Line> {
    near: Remote<L>,
    far: Remote<L>,
    report: Report,
}

impl<L: Line> Met<L> {
    /// Lets both lines go.
    fn lets_go(self, gone: &mut Gone<L>)
        ensures { (mid : Gone L) × LetsGo self.near [] gone.old mid × LetsGo self.far [] mid gone.new }
    {
        let Met { near, far, report } = self;
        gone.lets_go(near);
        gone.lets_go(far);
        drop(report);
    }
}

/// Why a session failed, and whether it goes on over new lines.
#[derive(Clone, Copy)]
struct Failure<'a> {
    stop: Stop<'a>,
    goes_on: bool,
}

/// Runs a session of the servers at two addresses, to each of which the token is shown first, if there is one; tells of
/// it, with the root that each of them has then, and says Bye to both.
pub fn meet_run<'a, D: Dial, W: Write, E: Write>(
    dial: &D,
    alloc: Global,
    near: SocketAddr,
    far: SocketAddr,
    terms: MeetingTerms<'_>,
    gone: &mut Gone<D::Dialed>,
    writer: &mut W,
    errors: &mut E,
) -> Result<(), Stop<'a>>
    ensures { MeetsServers D.Dialed.Line (D.gives dial.now) (option_copied terms.entry.token) near far
        gone.old gone.new (W.contents writer.old) (W.contents writer.new) result }
{
    let mut met = match meet(dial, alloc, near, far, terms, gone, errors, MOST_ANEW) {
        Ok(met) => met,
        Err(stop) => return Err(stop),
    };
    let ended = tell_and_part(alloc, near, far, &mut met, writer, errors);
    met.lets_go(gone);
    ended
}

/// A session of two servers. Where a server takes no more frames over a line, it goes on over new ones, at most so often.
fn meet<'a, D: Dial, E: Write>(
    dial: &D,
    alloc: Global,
    near: SocketAddr,
    far: SocketAddr,
    terms: MeetingTerms<'_>,
    gone: &mut Gone<D::Dialed>,
    errors: &mut E,
    most: u32,
) -> Result<Met<D::Dialed>, Stop<'a>>
    ensures { GoesOn D.Dialed.Line (D.gives dial.now) (option_copied terms.entry.token) near far
        gone.new result most gone.old }
{
    let told = if terms.verbose {
        Some(&mut *errors)
    } else {
        None
    };
    match session(dial, alloc, near, far, terms, gone, told) {
        Ok(met) => Ok(met),
        Err(failure) if failure.goes_on && most > 0 => {
            meet(dial, alloc, near, far, terms, gone, errors, most - 1)
        }
        Err(failure) => Err(failure.stop),
    }
}

/// A session over new lines. After a fault both are let go.
fn session<'a, D: Dial, E: Write>(
    dial: &D,
    alloc: Global,
    near: SocketAddr,
    far: SocketAddr,
    terms: MeetingTerms<'_>,
    gone: &mut Gone<D::Dialed>,
    told: Option<&mut E>,
) -> Result<Met<D::Dialed>, Failure<'a>>
    ensures { EndsSession D.Dialed.Line (D.gives dial.now) (option_copied terms.entry.token) near far
        gone.old gone.new result }
{
    let goes_on = false;
    let near_line = match let_in(dial, alloc, near, terms.idle, terms.token, gone) {
        Ok(line) => line,
        Err(fault) => {
            let stop = undialed(near, fault);
            return Err(Failure { stop, goes_on });
        }
    };
    let mut local = Remote::over(alloc, near_line);
    let far_line = match let_in(dial, alloc, far, terms.idle, terms.token, gone) {
        Ok(line) => line,
        Err(fault) => {
            gone.lets_go(local);
            let stop = undialed(far, fault);
            return Err(Failure { stop, goes_on });
        }
    };
    let mut peer = Watched {
        side: Remote::over(alloc, far_line),
        moved: 0,
        told,
    };
    match meet_over(alloc, &mut local, &mut peer) {
        Ok(report) => Ok(Met {
            near: local,
            far: peer.side,
            report,
        }),
        Err(fault) => {
            let goes_on = is_spent(fault, peer.moved);
            gone.lets_go(local);
            gone.lets_go(peer.side);
            let stop = failed(near, far, fault);
            Err(Failure { stop, goes_on })
        }
    }
}

/// Whether a side takes no more frames over its line, where so many states came or went: it says so, or cuts the line
/// where a window of questions is under way. A server that has no place says the same before any did: then there is
/// nothing to go on with.
fn is_spent(fault: SyncFault, moved: u64) -> bool {
    let (SyncFault::Local(refusal) | SyncFault::Peer(refusal)) = fault;
    match refusal {
        Refusal::TooManyRequests => moved > 0,
        Refusal::Truncated | Refusal::ReadFailed | Refusal::WriteFailed => moved >= MANY,
        _ => false,
    }
}

/// What a command is stopped with where a session of two servers has a fault.
fn failed<'a>(near: SocketAddr, far: SocketAddr, fault: SyncFault) -> Stop<'a>
    ensures { StopsBetween near far fault result }
{
    match fault {
        SyncFault::Local(refusal) => Stop::at_server(near, refusal),
        SyncFault::Peer(refusal) => Stop::at_server(far, refusal),
    }
}

/// Tells of a session, with the root that each server has then, and says Bye to both, also where one of them refuses
/// that.
fn tell_and_part<'a, L: Line, W: Write, E: Write>(
    alloc: Global,
    near: SocketAddr,
    far: SocketAddr,
    met: &mut Met<L>,
    writer: &mut W,
    errors: &mut E,
) -> Result<(), Stop<'a>>
    ensures { TellsThenParts L.Line near far met.old met.new (W.contents writer.old) (W.contents writer.new) result }
{
    let near_root = match root_at(alloc, near, &mut met.near) {
        Ok(root) => root,
        Err(stop) => return Err(stop),
    };
    let far_root = match root_at(alloc, far, &mut met.far) {
        Ok(root) => root,
        Err(stop) => return Err(stop),
    };
    let told = tell_meeting(alloc, &met.report, near_root, far_root, writer, errors);
    let near_parted = part(near, &mut met.near);
    let far_parted = part(far, &mut met.far);
    told.and(near_parted.and(far_parted))
}

/// The digest of all that a server holds.
fn root_at<'a, L: Line>(
    alloc: Global,
    address: SocketAddr,
    remote: &mut Remote<L>,
) -> Result<Root, Stop<'a>>
    ensures { GivesRoot L.Line address remote.old remote.new result }
{
    match root_over(alloc, remote) {
        Ok(digest) => Ok(Root { address, digest }),
        Err(refusal) => Err(Stop::at_server(address, refusal)),
    }
}

/// Says Bye to a server.
fn part<'a, L: Line>(address: SocketAddr, remote: &mut Remote<L>) -> Result<(), Stop<'a>>
    ensures { Parts L.Line address remote.old remote.new result }
{
    match remote.bye() {
        Ok(()) => Ok(()),
        Err(refusal) => Err(Stop::at_server(address, refusal)),
    }
}
