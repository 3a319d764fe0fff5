//! A client and a server over one connection within this process.
ghost use Rattle.std.specs.Prelude.{◌≡◌, ◌≢◌, ◌≤◌, ◌++◌, [], List, Err, Some, ℕ, IfErr, IfOk, OnErr, OnOk, codes, length};
ghost use Rattle.std.specs.Prelude.{string_bytes};
ghost use Rattle.hex.specs.Hex.{encode_lower};
ghost use Rattle.mvd_app.specs.Looped.{FailsLines, IsStopped, Loops, PrintsFrames, PrintsReplies, ReadsToEnd};
ghost use Rattle.mvd_app.specs.Looped.{ServesAlone, StopsUntold, ended_line};
ghost use Rattle.mvd_app.specs.Stored.{site_without_keys};
ghost use Rattle.mvd_dots.specs.declared.refusals.Refusal.TheVariants.{WriteFailed};
ghost use Rattle.mvd_input.specs.Hexadecimal.{AreJoined};
ghost use Rattle.mvd_replica.specs.Replicas.{site_of};

use crate::awaited::Awaited;
use mvd_dots::Refusal;
use mvd_frames::read_frame;
use mvd_input::{BYTES_MAX, Fault, HEX_MAX, hex_bytes, read_input, write_out};
use mvd_replica::{Ended, Replica, serve};
use mvd_site::Config;
use sqlite::{Connection, MemStore};
use std::alloc::Global;
use std::fmt::Write as Print;
use std::io::{self, ErrorKind, Read, Write};
use std::net::{IpAddr, Ipv4Addr, Net, OpenListener, OpenStream, Shutdown, SocketAddr};

/// Answers the requests that the reader's lines spell in hexadecimal, and writes each reply as such a line, and then
/// how the connection ended. The client sends all before the server begins, and reads once the server has closed. The
/// states are stored in memory.
///
/// It ends as `hex_bytes` does where the lines are at fault, and else as `Stopped`: with `FrameTooLong` where the
/// replies have over 32,768 bytes, and with `ReadFailed` where the connection cannot be made, or gives the client
/// other bytes than were sent.
#[tactic(auto, using(crate::proofs::Loops::loops_told, crate::proofs::Loops::loops_unread, crate::proofs::Loops::loops_unsent))]
pub fn loop_run<N: Net, R: Read, W: Write>(
    rt: &N,
    alloc: Global,
    reader: &mut R,
    writer: &mut W,
    config: Config,
) -> Result<(), Fault>
    // All is read, a site without keys is sent what the lines spell, and all that it replies is printed.
    ensures { Loops config (R.remaining reader.old) (R.remaining reader.new) (W.contents writer.old)
        (W.contents writer.new) result }
{
    let requests = requests_in(alloc, reader)?;
    let (replies, ended) = exchanged(rt, alloc, &requests, config)?;
    tell(alloc, &replies, ended, writer)
}

/// The bytes that the reader's lines spell.
#[tactic(auto, using(crate::proofs::Loops::fails_unread, crate::proofs::Loops::fails_spelling))]
fn requests_in<R: Read>(alloc: Global, reader: &mut R) -> Result<Vec<u8>, Fault>
    ensures spelled { IfOk result (λ bytes. (text : List ℕ) ×
        ReadsToEnd (R.remaining reader.old) (R.remaining reader.new) text × AreJoined text bytes.items) }
    ensures fault { IfErr result (FailsLines (R.remaining reader.old) (R.remaining reader.new)) }
{
    let lines = read_input(alloc, reader, HEX_MAX)?;
    Ok(hex_bytes(alloc, &lines)?)
}

/// Writes the replies as lines, and how the connection ended.
#[tactic(auto, using(crate::proofs::Loops::prints_replies, crate::proofs::Loops::untold_written))]
fn tell<W: Write>(
    alloc: Global,
    replies: &[u8],
    ended: Result<Ended, Refusal>,
    writer: &mut W,
) -> Result<(), Fault>
    ensures printed { OnOk result (PrintsReplies replies.now ended (W.contents writer.old) (W.contents writer.new)) }
    ensures stopped { IfErr result (StopsUntold (W.contents writer.old) (W.contents writer.new)) }
{
    let mut out = String::new(alloc);
    print_frames(alloc, replies, &mut out)?;
    print_ended(ended, &mut out)?;
    write_out(writer, out.as_str())
}

/// The replies that come back over a connection, and how it ended.
#[tactic(auto, using(crate::proofs::Loops::stopped_unread))]
fn exchanged<N: Net>(
    rt: &N,
    alloc: Global,
    requests: &[u8],
    config: Config,
) -> Result<(Vec<u8>, Result<Ended, Refusal>), Fault>
    ensures served { IfOk result
        (λ exchanged. ServesAlone config (Some requests.now) (Some []) (Some exchanged.0.items) exchanged.1) }
    ensures none_lost { IfOk result (λ exchanged. exchanged.1 ≢ Err WriteFailed) }
    ensures stopped { IfErr result IsStopped }
{
    let (mut client, server) = match connected(rt) {
        Ok(streams) => streams,
        Err(_) => return Err(Fault::Stopped(Refusal::ReadFailed)),
    };
    if client.write_all(requests).is_err() || client.shutdown(Shutdown::Write).is_err() {
        return Err(Fault::Stopped(Refusal::WriteFailed));
    }
    let (replies, ended) = answered(alloc, server, requests, config)?;
    let came = read_input(alloc, &mut Awaited::new(&mut client, &replies), BYTES_MAX)?;
    Ok((came, ended))
}

/// Both ends of a new connection within this machine, at a port that the system picks: the client's, and the server's.
fn connected<N: Net>(rt: &N) -> io::Result<(N::Stream, N::Stream)> {
    let listener = rt.bind(SocketAddr::new(IpAddr::V4(Ipv4Addr::LOCALHOST), 0))?;
    let client = rt.connect(listener.local_addr()?)?;
    let (server, _) = listener.accept()?;
    Ok((client, server))
}

/// Serves a connection, over which these requests are to come, sends the replies and closes it. It gives the replies,
/// and how the serving ended.
fn answered<S: Read + Write + Drop>(
    alloc: Global,
    mut server: S,
    requests: &[u8],
    config: Config,
) -> Result<(Vec<u8>, Result<Ended, Refusal>), Refusal>
    ensures served { IfOk result
        (λ answered. ServesAlone config (Some requests.now) (Some []) (Some answered.0.items) answered.1) }
    ensures none_lost { IfOk result (λ answered. answered.1 ≢ Err WriteFailed) }
{
    let mut replies = Replies::new(alloc);
    let mut awaited = Awaited::new(&mut server, requests);
    let ended = served(alloc, &mut awaited, &mut replies, config)?;
    drop(awaited);
    if let Err(Refusal::WriteFailed) = ended {
        return Err(replies.refused.unwrap_or(Refusal::WriteFailed));
    }
    send(server, &replies.bytes)?;
    Ok((replies.bytes, ended))
}

/// Serves a connection by a new replica, and gives how that ended.
#[tactic(auto, using(crate::proofs::Loops::serves_alone))]
fn served<R: Read, W: Write>(
    alloc: Global,
    reader: &mut R,
    writer: &mut W,
    config: Config,
) -> Result<Result<Ended, Refusal>, Refusal>
    ensures { IfOk result
        (ServesAlone config (R.remaining reader.old) (W.contents writer.old) (W.contents writer.new)) }
{
    let mut replica = in_memory(alloc, config)?;
    let ended = serve(alloc, reader, writer, &mut replica);
    drop(replica);
    Ok(ended)
}

/// A replica of a site with no key, stored in memory.
fn in_memory(alloc: Global, config: Config) -> Result<Replica<MemStore>, Refusal>
    ensures { IfOk result (λ replica. site_of replica ≡ site_without_keys config) }
{
    let conn = Connection::open_in_memory(alloc)?;
    match Replica::open(alloc, conn, config) {
        Ok(replica) => Ok(replica),
        Err((refusal, conn)) => {
            drop(conn);
            Err(refusal)
        }
    }
}

/// Sends the replies, and closes. What was left unread is read first: a stream that is closed with bytes unread may
/// lose what it sent.
fn send<S: Read + Write + Drop>(mut server: S, replies: &[u8]) -> Result<(), Refusal> {
    if io::copy(&mut server, &mut io::sink()).is_err() {
        return Err(Refusal::ReadFailed);
    }
    match server.write_all(replies) {
        Ok(()) => Ok(()),
        Err(_) => Err(Refusal::WriteFailed),
    }
}

/// The replies of a connection, as far as they are few enough.
#[derive(Drop)]
struct Replies {
    bytes: Vec<u8>,
    refused: Option<Refusal>,
    ghost few: { length bytes.items ≤ 32768 },
}

impl Replies {
    fn new(alloc: Global) -> Replies
        ensures { result.bytes.items ≡ [] }
    {
        Replies {
            bytes: Vec::new(alloc),
            refused: None,
        }
    }

    fn add(&mut self, more: &[u8]) -> Result<(), Refusal>
        ensures added { OnOk result (self.new.bytes.items ≡ self.old.bytes.items ++ more.now) }
        ensures kept { OnErr result (self.new.bytes.items ≡ self.old.bytes.items) }
    {
        if more.len() > BYTES_MAX - self.bytes.len() {
            return Err(Refusal::FrameTooLong);
        }
        self.bytes.extend_from_slice(more)?;
        Ok(())
    }
}

impl Write for Replies {
    ghost contents = { λ replies. Some replies.bytes.items };

    fn write(&mut self, buf: &[u8]) -> io::Result<usize> {
        match self.add(buf) {
            Ok(()) => Ok(buf.len()),
            Err(refusal) => {
                self.refused = Some(refusal);
                Err(io::Error::from(ErrorKind::WriteZero))
            }
        }
    }

    fn flush(&mut self) -> io::Result<()> {
        Ok(())
    }
}

/// Prints each frame as a line of hexadecimal digits.
#[tactic(auto, using(crate::proofs::Frames::so_far_none, crate::proofs::Frames::fewer_left))]
fn print_frames(alloc: Global, frames: &[u8], out: &mut String) -> Result<(), Refusal>
    ensures { OnOk result (PrintsFrames frames.now (string_bytes out.old) (string_bytes out.new)) }
{
    let mut rest = frames;
    loop {
        let before = rest;
        match read_frame(alloc, &mut rest)? {
            Some(_) => print_digits(alloc, &before[..before.len() - rest.len()], out)?,
            None => return Ok(()),
        }
    }
}

/// Prints bytes as a line of hexadecimal digits.
fn print_digits(alloc: Global, bytes: &[u8], out: &mut String) -> Result<(), Refusal>
    ensures { OnOk result (string_bytes out.new ≡ string_bytes out.old ++ (encode_lower bytes.now ++ codes "\n")) }
{
    let digits = hex::encode(alloc, bytes)?;
    writeln!(out, "{digits}")?;
    Ok(())
}

/// Prints how the connection ended.
fn print_ended(ended: Result<Ended, Refusal>, out: &mut String) -> Result<(), Refusal>
    ensures { OnOk result (string_bytes out.new ≡ string_bytes out.old ++ ended_line ended) }
{
    match ended {
        Ok(Ended::Bye) => out.push_str("ended bye\n")?,
        Ok(Ended::End) => out.push_str("ended end\n")?,
        Err(refusal) => writeln!(out, "ended {refusal}")?,
    }
    Ok(())
}
