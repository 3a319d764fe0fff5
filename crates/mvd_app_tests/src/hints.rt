//! What is told of a fault.
ghost use Rattle.std.specs.Prelude.{◌<◌};

use mvd_app::refused_in;
use mvd_dots::Refusal;
use mvd_hint::{Hint, Stop};
use mvd_input::Fault;
use mvd_replica::Replica;
use mvd_rows::Defs;
use mvd_site::Config;
use sqlite::{Connection, MemStore};
use std::alloc::{AllocError, Global};
use std::io::{self, ErrorKind};
use std::net::{IpAddr, Ipv4Addr, SocketAddr};
use std::test::Fail;

/// Whether this is told of why a command was stopped.
fn tells(alloc: Global, stop: &Stop<'_>, wanted: &str) -> Result<bool, AllocError> {
    let told = format!(in alloc; "{stop}")?;
    Ok(told.as_str() == wanted)
}

/// A site that holds two keys at most. It has no clause, so that the proof of a test does not carry the state of each
/// call.
pub fn opened(
    alloc: Global,
    conn: Connection<MemStore>,
    site: u32,
    defs: Defs,
) -> Result<Replica<MemStore>, Stop<'static>>
    requires { 0 < site }
{
    match Replica::open(alloc, conn, Config::new(site, 2, defs)) {
        Ok(replica) => Ok(replica),
        Err((refusal, mut conn)) => {
            let stop = refused_in("a.db", refusal, &mut conn);
            drop(conn);
            Err(stop)
        }
    }
}

/// Whether this is told where a file is opened as that of a site.
fn is_told(
    alloc: Global,
    conn: Connection<MemStore>,
    site: u32,
    wanted: &str,
) -> Result<bool, AllocError>
    requires { 0 < site }
{
    match opened(alloc, conn, site, Defs::new(alloc)) {
        Ok(replica) => {
            drop(replica);
            Ok(false)
        }
        Err(stop) => tells(alloc, &stop, wanted),
    }
}

/// What is told where the file of site 7 is opened as that of another.
fn told_to(alloc: Global, site: u32, wanted: &str) -> Result<bool, Fail>
    requires { 0 < site }
{
    match opened(
        alloc,
        Connection::open_in_memory(alloc)?,
        7,
        Defs::new(alloc),
    ) {
        Ok(replica) => Ok(is_told(alloc, replica.into_connection(), site, wanted)?),
        Err(_) => Ok(false),
    }
}

fn run(conn: &mut Connection<MemStore>, sql: &str) -> bool {
    conn.execute_batch(sql).is_ok()
}

/// What is told where a file with such a table is opened.
fn told_of(alloc: Global, table: &str, wanted: &str) -> Result<bool, Fail> {
    let mut conn = Connection::open_in_memory(alloc)?;
    let ran = run(&mut conn, table);
    Ok(is_told(alloc, conn, 7, wanted)? && ran)
}

#[test]
fn whose_a_file_is_is_told(rt: HostRuntime) -> Result<(), Fail> {
    let other_site =
        "mvd: fault 16 SiteMismatch\nmvd: a.db is the file of site 7: give that number as --site, or name another file";
    assert!(rt; told_to(rt.alloc(), 8, other_site)?);
    let other_program =
        "mvd: fault 17 Damaged\nmvd: a.db is the file of another program: name another file";
    assert!(rt; told_of(rt.alloc(), "CREATE TABLE note (title TEXT)", other_program)?);
    Ok(())
}

/// Why a command was stopped.
#[derive(Clone, Copy)]
enum Cause {
    /// A port that is in use.
    InUse,
    /// A port without rights.
    NoRight,
    /// A peer that is none.
    NoPeer,
    /// A line without its form.
    Line,
    /// A file that was lost.
    Lost,
    /// One without a hint.
    Memory,
    /// The same in a session with a server.
    MemoryThere,
}

fn at(port: u16) -> SocketAddr {
    SocketAddr::new(IpAddr::V4(Ipv4Addr::LOCALHOST), port)
}

fn stop_of(cause: Cause) -> Stop<'static> {
    match cause {
        Cause::InUse => Stop::unheard(at(7007), io::Error::from(ErrorKind::AddrInUse)),
        Cause::NoRight => Stop::unheard(at(80), io::Error::from(ErrorKind::PermissionDenied)),
        Cause::NoPeer => Stop::at_server(at(7007), Refusal::BadKind),
        Cause::Line => Stop::in_input(Fault::Line(3), Hint::Hexadecimal),
        Cause::Lost => Stop::in_lost("a.db"),
        Cause::Memory => Stop::from(Refusal::Memory),
        Cause::MemoryThere => Stop::at_server(at(7007), Refusal::Memory),
    }
}

const TOLD: [(Cause, &str); 7] = [
    (
        Cause::InUse,
        "mvd: fault 34 ReadFailed\nmvd: 127.0.0.1:7007 is in use: end the program that listens there, or name another port",
    ),
    (
        Cause::NoRight,
        "mvd: fault 34 ReadFailed\nmvd: no permission to listen at 127.0.0.1:80: name a --port of 1024 or more",
    ),
    (
        Cause::NoPeer,
        "mvd: fault 32 BadKind\nmvd: 127.0.0.1:7007 does not answer as mvd does: name another --address and --port, or bring both to one version",
    ),
    (
        Cause::Line,
        "mvd: line 3: not a command\nmvd: standard input: a line has two hexadecimal digits for each byte",
    ),
    (
        Cause::Lost,
        "mvd: fault 21 Store\nmvd: a.db is missing, but its log is there: put the file back, docs/USING.md tells how",
    ),
    (Cause::Memory, "mvd: fault 20 Memory"),
    (Cause::MemoryThere, "mvd: fault 20 Memory"),
];

#[test]
fn a_cause_is_told(rt: HostRuntime) -> Result<(), Fail> {
    for (cause, wanted) in TOLD {
        assert!(rt; tells(rt.alloc(), &stop_of(cause), wanted)?, "{wanted}");
    }
    Ok(())
}
