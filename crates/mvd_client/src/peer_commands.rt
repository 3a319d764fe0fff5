//! The commands that meet a server: sessions of a stored site, and shells.
ghost use Rattle.std.specs.Prelude.{◌≡◌, ◌≢◌, ◌≤◌, ◌+◌, ◌++◌, [], IfErr, IfOk, IsErr, List, OnOk, false, option_copied, string_bytes};
ghost use Rattle.std.specs.Io.KnownBytes.{Appends};
ghost use Rattle.mvd_client.specs.AskedServer.{RepliesNoted, lost_of};
ghost use Rattle.mvd_client.specs.Gone.{LetsGo};
ghost use Rattle.mvd_client.specs.Questioned.{CountsFew, questions};
ghost use Rattle.mvd_client.specs.Refusals.{noted_in};
ghost use Rattle.mvd_client.specs.Reported.{CutReport, HasNoLines, Reports, StopsLeft, refused_keys_text, root_in_states, session_text};
ghost use Rattle.mvd_client.specs.Stopped.{StopsFaulted};
ghost use Rattle.mvd_client.specs.Synced.{FollowsPushed, MeetsFar, TakesPushes};
ghost use Rattle.mvd_client.specs.SyncSides.{in_session, sides_at};
ghost use Rattle.mvd_client.specs.SyncsAt.{AreTrue, MeetsAt, SyncsAt, SyncsFrom, SyncsOver, TellsSession};
ghost use Rattle.mvd_client.specs.Talked.{SaysBye, ShellsAt, ShellsOver};
ghost use Rattle.mvd_dots.specs.declared.refusals.Refusal.{Refusal};
ghost use Rattle.mvd_dots.specs.declared.refusals.Refusal.TheVariants.{Memory};
ghost use Rattle.mvd_peer.specs.Sides.{two};
ghost use Rattle.mvd_print.specs.Text.{root_text};
ghost use Rattle.mvd_replica.specs.Replicas.{site_of};
ghost use Rattle.mvd_replica.specs.Sides.{IsTrueSite};
ghost use Rattle.mvd_shell.specs.Shell.{at};
ghost use Rattle.mvd_remote.specs.Lines.{IsTrueRemote, far_of};
ghost use Rattle.mvd_remote.specs.declared.remote.Remote.{Remote};
ghost use Rattle.mvd_sync.specs.Ran.{IsRun};
ghost use Rattle.mvd_sync.specs.Session.{Session};

use crate::asked_server::{AskedServer, Noted};
use crate::dial::{Dial, let_in, undialed};
use crate::gone::Gone;
use crate::progress::Watched;
use crate::stored_side::{Refusals, StoredSide};
use mvd_dots::Refusal;
use mvd_hint::{Hint, Older, Stop};
use mvd_input::Fault;
use mvd_keys::Path;
use mvd_print::{print_keys, print_root};
use mvd_remote::{Line, Remote};
use mvd_replica::Replica;
use mvd_shell::{shell_run, write_lines};
use mvd_sync::{Left, Report, Side, SyncFault, sync};
use mvd_wire::Token;
use sqlite::Alter;
use std::alloc::Global;
use std::fmt::Write as Print;
use std::io::{BufRead, Write};
use std::net::SocketAddr;

/// Runs a session with the server at an address, to which the token is shown first, if there is one, and says Bye.
/// Where `told` is given, it is told how far the session is.
#[tactic(auto, using(crate::proofs::Syncing::pushed_none, crate::proofs::Syncing::takes_none))]
pub fn sync_run<'a, D: Dial, S: Alter + Drop, E: Write>(
    dial: &D,
    alloc: Global,
    replica: &mut Replica<S>,
    address: SocketAddr,
    idle: u32,
    token: Option<&Token>,
    gone: &mut Gone<D::Dialed>,
    told: Option<&mut E>,
) -> Result<Report, Stop<'a>>
    // A session ran over a line that the address gives, and what is told is what came of it; or there is no line.
    ensures syncs { SyncsAt D.Dialed.Line (D.gives dial.now address) (option_copied token.entry) address
        gone.old gone.new replica.old replica.new result }
    // Where what the address leads to is true, and the site is not broken, the two meet.
    ensures meets { AreTrue D.Dialed.Line (D.gives dial.now address) → (site_of replica.old).broken ≡ false →
        MeetsAt D.Dialed.Line (D.gives dial.now address) (option_copied token.entry) address
        replica.old replica.new result }
    // However it ends, all that was done to the site is turns, each of which pushed a state.
    ensures takes { TakesPushes replica.old replica.new }
    // It changed by these pushes alone, and its records follow.
    ensures pushed { FollowsPushed replica.old replica.new }
{
    replica.stands();
    let line = match let_in(dial, alloc, address, idle, token, gone) {
        Ok(line) => line,
        Err(fault) => return Err(undialed(address, fault)),
    };
    match sync_line(alloc, line, replica, gone, told) {
        Ok(report) => Ok(report),
        Err(fault) => Err(faulted(address, fault)),
    }
}

/// What a command is stopped with where its session with the server at an address has a fault.
fn faulted<'a>(address: SocketAddr, fault: SyncFault) -> Stop<'a>
    ensures { StopsFaulted address fault result }
{
    match fault {
        SyncFault::Local(refusal) => Stop::in_session(refusal),
        SyncFault::Peer(refusal) => Stop::at_server(address, refusal),
    }
}

/// Runs such a session, and tells of it; where `verbose`, also how far it is.
pub fn sync_told<'a, D: Dial, S: Alter + Drop, W: Write, E: Write>(
    dial: &D,
    alloc: Global,
    replica: &mut Replica<S>,
    address: SocketAddr,
    idle: u32,
    token: Option<&Token>,
    gone: &mut Gone<D::Dialed>,
    verbose: bool,
    writer: &mut W,
    errors: &mut E,
) -> Result<(), Stop<'a>>
    // What is printed is what came of the session, and what was done to the site is its turns.
    ensures tells { TellsSession D.Dialed.Line (D.gives dial.now address) (option_copied token.entry) address
        gone.old gone.new replica.old replica.new (W.contents writer.old) (W.contents writer.new) result }
{
    replica.stands();
    let told = if verbose { Some(&mut *errors) } else { None };
    match sync_run(dial, alloc, replica, address, idle, token, gone, told) {
        Ok(report) => tell_report(alloc, replica, &report, writer, errors),
        Err(stop) => Err(stop),
    }
}

/// Runs a session over a line over which nothing went, and lets it go as the session left it.
fn sync_line<L: Line, S: Alter + Drop, E: Write>(
    alloc: Global,
    line: L,
    replica: &mut Replica<S>,
    gone: &mut Gone<L>,
    told: Option<&mut E>,
) -> Result<Report, SyncFault>
    ensures syncs { (left : Remote L) × (refused : List (Refusal × Unit {0}))
        × SyncsFrom L.Line line left replica.old replica.new refused result × LetsGo left refused gone.old gone.new }
    ensures takes { TakesPushes replica.old replica.new }
    ensures pushed { FollowsPushed replica.old replica.new }
{
    let mut watched = Watched {
        side: Remote::over(alloc, line),
        moved: 0,
        told,
    };
    let mut refused = Refusals::none();
    let ran = sync_over(alloc, replica, &mut refused, &mut watched);
    gone.lets_go_with(watched.side, refused);
    ran
}

/// Runs a session over a line, and says Bye. Where the line is true, what is at its other end is a true side: both
/// sides' states are joined, and where no fault is told all that differed, but for the keys that the session leaves. What
/// the site refused in it is noted behind what it had refused.
pub fn sync_over<L: Line, S: Alter + Drop, E: Write>(
    alloc: Global,
    replica: &mut Replica<S>,
    refused: &mut Refusals,
    watched: &mut Watched<'_, Remote<L>, E>,
) -> Result<Report, SyncFault>
    ensures meets { IsTrueSite (site_of replica.old) → IsTrueRemote L.is_true L.far watched.old.side →
        MeetsFar L.is_true L.far replica.old replica.new watched.old.side watched.new.side result }
    // Whatever is at the other end.
    ensures syncs { SyncsOver L.Line (in_session replica.old (noted_in refused.old))
        (in_session replica.new (noted_in refused.new)) watched.old.side watched.new.side result }
    ensures takes { TakesPushes replica.old replica.new }
    ensures pushed { FollowsPushed replica.old replica.new }
{
    let report = match session_of(alloc, replica, refused, watched) {
        Ok(report) => report,
        Err(fault) => return Err(fault),
    };
    match watched.side.bye() {
        Ok(()) => Ok(report),
        Err(refusal) => Err(SyncFault::Peer(refusal)),
    }
}

/// Runs a session of a stored site with what is at the other end of a line.
fn session_of<L: Line, S: Alter + Drop, E: Write>(
    alloc: Global,
    replica: &mut Replica<S>,
    refused: &mut Refusals,
    watched: &mut Watched<'_, Remote<L>, E>,
) -> Result<Report, SyncFault>
    ensures session { Session (sides_at L.Line) 10000000
        (two (in_session replica.old (noted_in refused.old)) watched.old.side)
        (two (in_session replica.new (noted_in refused.new)) watched.new.side) result }
    ensures ran { IfOk result (IsRun (sides_at L.Line) 10000000
        (two (in_session replica.old (noted_in refused.old)) watched.old.side)
        (two (in_session replica.new (noted_in refused.new)) watched.new.side)) }
    // What it does to the site is turns.
    ensures takes { TakesPushes replica.old replica.new }
    ensures pushed { FollowsPushed replica.old replica.new }
    ensures few { IsTrueSite (site_of replica.old) → IsTrueRemote L.is_true L.far watched.old.side →
        CountsFew (questions watched.old.side) (questions watched.new.side)
        (site_of replica.old).states (far_of L.far watched.old.side).states }
    ensures most { questions watched.new.side ≤ questions watched.old.side + 10000000 }
{
    let mut side = StoredSide {
        alloc,
        replica,
        refused,
    };
    session_with(alloc, &mut side, watched)
}

/// The same of the site behind references.
fn session_with<L: Line, S: Alter + Drop, E: Write>(
    alloc: Global,
    side: &mut StoredSide<'_, S>,
    watched: &mut Watched<'_, Remote<L>, E>,
) -> Result<Report, SyncFault>
    ensures same_reference { side.new.replica.ghost_name ≡ side.old.replica.ghost_name }
    ensures same_notes { side.new.refused.ghost_name ≡ side.old.refused.ghost_name }
    ensures session { Session (sides_at L.Line) 10000000
        (two (in_session side.old.replica.now (noted_in side.old.refused.now)) watched.old.side)
        (two (in_session side.new.replica.now (noted_in side.new.refused.now)) watched.new.side) result }
    ensures ran { IfOk result (IsRun (sides_at L.Line) 10000000
        (two (in_session side.old.replica.now (noted_in side.old.refused.now)) watched.old.side)
        (two (in_session side.new.replica.now (noted_in side.new.refused.now)) watched.new.side)) }
    ensures takes { TakesPushes side.old.replica.now side.new.replica.now }
    ensures pushed { FollowsPushed side.old.replica.now side.new.replica.now }
    ensures few { IsTrueSite (site_of side.old.replica.now) → IsTrueRemote L.is_true L.far watched.old.side →
        CountsFew (questions watched.old.side) (questions watched.new.side)
        (site_of side.old.replica.now).states (far_of L.far watched.old.side).states }
    ensures most { questions watched.new.side ≤ questions watched.old.side + 10000000 }
{
    sync(alloc, side, watched)
}

/// Tells how many keys a session exchanged, how many were refused, and the root digest; and on `errors` which keys
/// were refused, and whether the file was older than what the server saw of it. Keys that were refused are what the
/// command is stopped with.
pub fn tell_report<'a, S: Alter + Drop, W: Write, E: Write>(
    alloc: Global,
    replica: &Replica<S>,
    report: &Report,
    writer: &mut W,
    errors: &mut E,
) -> Result<(), Stop<'a>>
    ensures told { Reports report.now (site_of replica.now) (W.contents writer.old) (W.contents writer.new) result }
    ensures left { report.now.first_refused ≢ [] → IsErr result }
{
    tell_counts(alloc, replica, report, writer)?;
    for left in report.first_refused.as_slice() {
        tell_left(left, errors);
    }
    if report.old > 0 {
        let _ = writeln!(errors, "mvd: {}", Older(report.old));
    }
    left_with(report)
}

/// Keys that were refused are what a command is stopped with.
pub(crate) fn left_with<'a>(report: &Report) -> Result<(), Stop<'a>>
    ensures { StopsLeft report.now result }
{
    match report.first_refused.as_slice().first() {
        Some(left) => Err(Stop::left(left.refusal)),
        None => Ok(()),
    }
}

#[tactic(auto, using(crate::proofs::Cutting::no_lines, crate::proofs::Cutting::not_written))]
fn tell_counts<S: Alter + Drop, W: Write>(
    alloc: Global,
    replica: &Replica<S>,
    report: &Report,
    writer: &mut W,
) -> Result<(), Fault>
    ensures told { OnOk result (Appends (W.contents writer.old) (W.contents writer.new)
        (session_text report.now (site_of replica.now).states)) }
    ensures cut { IfErr result (CutReport (session_text report.now (site_of replica.now).states)
        (site_of replica.now).broken (W.contents writer.old) (W.contents writer.new)) }
{
    let lines = session_lines(alloc, replica, report)?;
    write_lines(writer, lines.as_str())
}

/// The lines that tell of a session with a server.
fn session_lines<S: Alter + Drop>(
    alloc: Global,
    replica: &Replica<S>,
    report: &Report,
) -> Result<String, Refusal>
    ensures text { IfOk result (λ lines. string_bytes lines ≡
        session_text report.now (site_of replica.now).states) }
    ensures refused { IfErr result (HasNoLines (site_of replica.now).broken) }
{
    let mut lines = String::new(alloc);
    print_keys(report.keys, &mut lines)?;
    print_refused(report.refused, &mut lines)?;
    add_root(alloc, replica, &mut lines)?;
    Ok(lines)
}

/// Adds a line with how many keys were refused, where some were.
pub(crate) fn print_refused(count: u64, lines: &mut String) -> Result<(), Refusal>
    ensures text { OnOk result (string_bytes lines.new ≡ string_bytes lines.old ++ refused_keys_text count) }
    ensures memory { IfErr result (λ refusal. refusal ≡ Memory) }
{
    if count > 0 {
        writeln!(lines, "refused {count}")?;
    }
    Ok(())
}

/// Tells which key was refused, by which side, and how. A line that cannot be written is left out.
fn tell_left<E: Write>(left: &Left, errors: &mut E) {
    let place = match left.side {
        Side::Local => "this side",
        Side::Peer => "the server",
    };
    let _ = writeln!(
        errors,
        "mvd: key {}: {} at {place}",
        left.key.text(),
        left.refusal
    );
}

/// Adds a line with the root digest.
fn add_root<S: Alter + Drop>(
    alloc: Global,
    replica: &Replica<S>,
    lines: &mut String,
) -> Result<(), Refusal>
    ensures text { OnOk result (string_bytes lines.new ≡
        string_bytes lines.old ++ root_text (root_in_states (site_of replica.now).states)) }
    ensures refused { IfErr result (HasNoLines (site_of replica.now).broken) }
{
    let path = Path::new(alloc, &[])?;
    let digests = replica.node(&path)?;
    Ok(print_root(alloc, digests.own, lines)?)
}

/// Answers the lines through the server at an address, to which the token is shown first, if there is one, and says Bye
/// at their end. Where the connection was lost, a write to which no reply came is told as unknown; each later line is
/// refused so, and so is the Bye. Where the server ended it, each later line and the Bye are refused as it said.
pub fn remote_shell_run<'a, D: Dial, R: BufRead, W: Write>(
    dial: &D,
    alloc: Global,
    address: SocketAddr,
    idle: u32,
    token: Option<&Token>,
    gone: &mut Gone<D::Dialed>,
    reader: &mut R,
    writer: &mut W,
) -> Result<(), Stop<'a>>
    // The shell is over a line that the address gives; or there is no line.
    ensures shells { ShellsAt D.Dialed.Line (D.gives dial.now address) (option_copied token.entry) address
        gone.old gone.new
        (R.remaining reader.old) (W.contents writer.old) (R.remaining reader.new) (W.contents writer.new) result }
{
    let line = match let_in(dial, alloc, address, idle, token, gone) {
        Ok(line) => line,
        Err(fault) => return Err(undialed(address, fault)),
    };
    let mut server = AskedServer::over(alloc, line, token.is_some());
    let ended = shell_over(alloc, &mut server, address, reader, writer);
    gone.lets_go(server.remote);
    ended
}

/// The same over a line to that server.
pub fn shell_over<'a, L: Line, R: BufRead, W: Write>(
    alloc: Global,
    server: &mut AskedServer<L>,
    address: SocketAddr,
    reader: &mut R,
    writer: &mut W,
) -> Result<(), Stop<'a>>
    ensures shells { ShellsOver (RepliesNoted L.Line) lost_of (SaysBye L.Line) address
        (at server.old (R.remaining reader.old) (W.contents writer.old))
        (at server.new (R.remaining reader.new) (W.contents writer.new)) result }
{
    match shell_run::<AskedServer<L>, Noted, R, W>(alloc, server, reader, writer) {
        Ok(()) => {}
        Err(fault) => return Err(Stop::in_input(fault, Hint::Script)),
    }
    match server.bye() {
        Ok(()) => Ok(()),
        Err(refusal) => Err(Stop::at_server(address, refusal)),
    }
}
