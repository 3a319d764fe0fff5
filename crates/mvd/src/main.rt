//! The program `mvd`.
#![tactic(auto)]

ghost use Rattle.std.specs.Prelude.{◌≡◌};
ghost use Rattle.std.specs.Process.{exit_status};
ghost use Rattle.clap.specs.Walk.{texts as texts_of};
ghost use Rattle.mvd.specs.Obeyed.{Obeys, fault_status, unread_status, status_after};
ghost use Rattle.mvd_app.specs.Tasks.{outside};
ghost use Rattle.sqlite.specs.WalFiles.{image_at};

use mvd_app::{Direct, Stop, run};
use mvd_client::{Dial, Gone};
use mvd_dots::Refusal;
use mvd_input::{Fault, OrderFault, order_of};
use mvd_server::Sockets;
use sqlite::{FileFrom, FileStore, Start, Unknown};
use sqlite_trees::store::Store;
use std::env;
use std::io::{self, BufRead, BufReader, Write};
use std::process::ExitCode;

fn main(rt: HostRuntime) -> io::Result<ExitCode> {
    match words(&rt) {
        Ok(words) => started(&rt, &words),
        Err(error) => unread(&rt, error),
    }
}

/// Does what the words ask for, with the system's own input, output and sockets, and gives the status.
fn started(rt: &HostRuntime, words: &[String]) -> io::Result<ExitCode> {
    let texts = texts(rt, words)?;
    let Ok(mut reader) = BufReader::new(rt.alloc(), rt.reader()) else {
        return Ok(tell_stop(rt, &Stop::from(Refusal::Memory)));
    };
    let mut writer = io::writer(rt);
    let mut sockets = Direct {};
    let dial = mvd_app::Sockets(rt);
    let mut gone = Gone::new(rt);
    // A torn write is taken to leave each byte old or new.
    Ok(obey(
        rt,
        &texts,
        Unknown,
        &dial,
        &mut gone,
        &mut sockets,
        &mut reader,
        &mut writer,
    ))
}

/// Does what the words ask for, of which the first is the program's own name, and gives the status.
fn obey<'a, S: Start, D: Dial, K: Sockets, R: BufRead, W: Write>(
    rt: &'a HostRuntime,
    words: &'a [&'a str],
    start: S,
    dial: &D,
    gone: &mut Gone<D::Dialed>,
    sockets: &mut K,
    reader: &mut R,
    writer: &mut W,
) -> ExitCode
    // The order of the words is done, and the status is of how that ended. Or the words are no order, and nothing is.
    ensures { Obeys ⟦<FileStore<FileFrom<S>> as Store>⟧ K.Sockets D.Dialed.Line (D.gives dial.now) (image_at S.Start)
        (texts_of words.now) (outside sockets.old gone.old (R.remaining reader.old) (W.contents writer.old))
        (outside sockets.new gone.new (R.remaining reader.new) (W.contents writer.new)) (exit_status result) }
{
    match order_of(rt.alloc(), words) {
        Ok(order) => {
            let ran = run(rt, order, start, dial, gone, sockets, reader, writer);
            status(rt, &ran.ended)
        }
        Err(fault) => {
            drop(start);
            refused(rt, &fault)
        }
    }
}

/// The status of how a command ended, and why it was stopped, on standard error.
fn status(rt: &impl Eprint, ended: &Result<(), Stop<'_>>) -> ExitCode
    ensures { exit_status result ≡ status_after ended.now }
{
    match ended {
        Ok(()) => ExitCode::SUCCESS,
        Err(stop) => tell_stop(rt, stop),
    }
}

/// Tells on standard error that a word is no text, and gives its status.
fn unread(rt: &impl Eprint, error: io::Error) -> io::Result<ExitCode> {
    if error.kind() != io::ErrorKind::InvalidData {
        return Err(error);
    }
    // Where standard error takes nothing, the status still tells.
    let _ = eprintln!(rt; "mvd: a word is no UTF-8\nmvd: name each file in UTF-8");
    Ok(ExitCode::from(2))
}

/// The words of the command line, of which the first is the program's own name.
fn words(rt: &HostRuntime) -> io::Result<Vec<String>> {
    let mut words = Vec::new(rt.alloc());
    for word in env::args(rt)? {
        words.push(word)?;
    }
    Ok(words)
}

fn texts<'a>(rt: &HostRuntime, words: &'a [String]) -> io::Result<Vec<&'a str>> {
    let mut texts = Vec::new(rt.alloc());
    for word in words {
        texts.push(word.as_str())?;
    }
    Ok(texts)
}

/// Tells on standard error why a command line asks for nothing, and gives its status.
fn refused(rt: &impl Eprint, fault: &OrderFault) -> ExitCode
    ensures { exit_status result ≡ unread_status fault.now }
{
    match fault {
        OrderFault::Words(error) => {
            let _ = rt.eprint(error);
        }
        OrderFault::Range { option, most } => {
            let _ = eprintln!(rt; "mvd: bad number: --{option} is 1 to {most}");
        }
        OrderFault::Stopped(refusal) => return tell_stop(rt, &Stop::from(*refusal)),
    }
    ExitCode::from(2)
}

/// Tells on standard error why a command was stopped, and gives its status.
fn tell_stop(rt: &impl Eprint, stop: &Stop<'_>) -> ExitCode
    ensures { exit_status result ≡ fault_status stop.now.fault }
{
    let _ = eprintln!(rt; "{stop}");
    status_of(&stop.fault)
}

/// 1 where a command was stopped, and 3 where a line is not a command.
fn status_of(fault: &Fault) -> ExitCode
    ensures { exit_status result ≡ fault_status fault.now }
{
    match fault {
        Fault::Stopped(_) => ExitCode::from(1),
        Fault::Line(_) => ExitCode::from(3),
    }
}
