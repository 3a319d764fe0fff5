//! What a command line asks for, done: with standard input and output, files and sockets.
ghost use Rattle.std.specs.Prelude.{◌≡◌, ◌⊎◌, IfErr, IfOk, IfSome, List, Some, is_some, option_copied, ℕ};
ghost use Rattle.mvd_app.specs.Done.{DoesFile, DoesOrder};
ghost use Rattle.mvd_app.specs.Named.{StopsAtDefs, StopsAtToken};
ghost use Rattle.mvd_app.specs.OnFile.{RunsOnFile, setup_in};
ghost use Rattle.mvd_app.specs.Stored.{IsConfigFor, IsWithoutFile, filed};
ghost use Rattle.mvd_app.specs.Tasks.{DoesTask, MayWork, outside, task_of};
ghost use Rattle.mvd_client.specs.SyncsAt.{TellsSession};
ghost use Rattle.mvd_input.specs.Orders.{IsInRange, IsSetUp};
ghost use Rattle.mvd_replica.specs.Turns.{Turn};
ghost use Rattle.sqlite.specs.WalFiles.{image_at};

use crate::closing::{LeftOf, Ran, finish};
use crate::opening::opened;
use crate::paths::Paths;
use crate::serve_command::serve_stored;
use crate::setups::config_in;
use crate::tokens::{first_of, tokens_in};
use crate::typed_lines::typed;
use crate::without_files::{run_loop, run_meeting, run_remote_shell, run_sim};
use mvd_client::{Dial, Gone, sync_told};
use mvd_hint::{Stop, Watch};
use mvd_input::{Order, Peers, Setup};
use mvd_replica::Replica;
use mvd_server::{Sockets, Terms, Tokens};
use mvd_site::Config;
use mvd_wire::Token;
use sqlite::{Alter, FileFrom, FileStore, Start};
use sqlite_disk::Disk;
use sqlite_trees::store::Store;
use std::io::{BufRead, Write};
use std::net::{Net, SocketAddr};

/// What is done with a stored site.
#[derive(Clone, Copy)]
enum Work<'a> {
    Serve(SocketAddr, Terms<'a>, Option<Peers<'a>>),
    Shell,
    Sync(SocketAddr, u32, bool),
}

/// Runs an order, from `reader` where it reads lines, and to `writer`. A file that it works on is made where it is
/// missing. It is closed, with its log, also where the command was stopped, unless its site is broken or it cannot be
/// closed; and whatever is left of the site comes back, to be dropped. What stands in it at first is what `start` names,
/// which no code reads. `dial` leads to the server of a session or a shell, `gone` notes the lines to servers as
/// they are had and let go, and `sockets` move the bytes of the clients that are served.
pub fn run<'a, S: Start, D: Dial, K: Sockets, R: BufRead, W: Write>(
    rt: &'a HostRuntime,
    order: Order<'a>,
    start: S,
    dial: &D,
    gone: &mut Gone<D::Dialed>,
    sockets: &mut K,
    reader: &mut R,
    writer: &mut W,
) -> Ran<'a, LeftOf<FileFrom<S>>>
    requires { IsInRange order }
    // What stands in the file of the order's site then. The site was not opened, and the command is stopped; or it took
    // turns, and what they come to is left, also by a stop.
    ensures file { RunsOnFile ⟦<FileStore<FileFrom<S>> as Store>⟧ (image_at S.Start) (setup_in order.entry) result }
    // What was printed, and how the command ended. The site was not opened, and it is stopped with what a file told. Or
    // its task was done, and nothing else: these are the turns that it took. Of a file that was closed no write is lost
    // that it held, of either version. What a script, a shell, a session or `loop` read and printed is of what it did.
    ensures told { DoesOrder ⟦<FileStore<FileFrom<S>> as Store>⟧ K.Sockets D.Dialed.Line (D.gives dial.now)
        (image_at S.Start) order.entry (outside sockets.old gone.old (R.remaining reader.old) (W.contents writer.old))
        (outside sockets.new gone.new (R.remaining reader.new) (W.contents writer.new)) result }
{
    let paths = &Paths::of(rt);
    match order {
        Order::Sim => without_file(run_sim(rt.alloc(), reader, writer), start),
        Order::Loop(setup) => without_file(run_loop(rt, paths, setup, reader, writer), start),
        Order::Serve {
            db,
            setup,
            address,
            conns,
            idle,
            http,
            clients,
            peers,
            named,
            quiet,
            token_file,
        } => {
            let terms = Terms {
                http,
                conns,
                idle,
                clients,
                tokens: None,
                token_file: token_file.unwrap_or(""),
                hosts: named.hosts.unwrap_or(""),
                origins: named.origins.unwrap_or(""),
                quiet,
                peers: &[],
                every: 0,
            };
            let work = Work::Serve(address, terms, peers);
            run_stored(
                rt, paths, db, setup, token_file, work, start, dial, gone, sockets, reader, writer,
            )
        }
        Order::Shell { db, setup } => run_stored(
            rt,
            paths,
            db,
            setup,
            None,
            Work::Shell,
            start,
            dial,
            gone,
            sockets,
            reader,
            writer,
        ),
        Order::RemoteShell {
            address,
            idle,
            token_file,
        } => without_file(
            run_remote_shell(paths, dial, address, idle, token_file, gone, reader, writer),
            start,
        ),
        Order::Sync {
            db,
            setup,
            address,
            idle,
            verbose,
            token_file,
        } => {
            let work = Work::Sync(address, idle, verbose);
            run_stored(
                rt, paths, db, setup, token_file, work, start, dial, gone, sockets, reader, writer,
            )
        }
        Order::Meet {
            address,
            with,
            idle,
            verbose,
            token_file,
        } => without_file(
            run_meeting(
                paths, dial, address, with, idle, verbose, token_file, gone, writer,
            ),
            start,
        ),
    }
}

/// How a command ends that works on no file.
fn without_file<'a, S: Start>(ended: Result<(), Stop<'a>>, start: S) -> Ran<'a, LeftOf<FileFrom<S>>>
    ensures { IsWithoutFile ended.entry result }
{
    drop(start);
    Ran { left: None, ended }
}

/// Opens the site that a file holds, which is made where it is missing, works on it, and closes it: what the log holds
/// is copied into the file. Before that it looks whether they still are what was opened. It is proved for whatever
/// stands in the file. The definitions and the tokens are read first.
fn run_stored<'a, N: Net, S: Start, D: Dial, K: Sockets, R: BufRead, W: Write>(
    rt: &N,
    paths: &Paths<'_>,
    db: &'a str,
    setup: Setup<'a>,
    token_file: Option<&'a str>,
    work: Work<'_>,
    start: S,
    dial: &D,
    gone: &mut Gone<D::Dialed>,
    sockets: &mut K,
    reader: &mut R,
    writer: &mut W,
) -> Ran<'a, LeftOf<FileFrom<S>>>
    requires set_up { IsSetUp setup }
    requires work { MayWork work }
    ensures file { RunsOnFile ⟦<FileStore<FileFrom<S>> as Store>⟧ (image_at S.Start) (Some setup.entry) result }
    ensures told { DoesFile ⟦<FileStore<FileFrom<S>> as Store>⟧ K.Sockets D.Dialed.Line (D.gives dial.now)
        (image_at S.Start) (filed db.entry setup.entry token_file.entry (task_of work.entry))
        (outside sockets.old gone.old (R.remaining reader.old) (W.contents writer.old))
        (outside sockets.new gone.new (R.remaining reader.new) (W.contents writer.new)) result }
{
    let (config, tokens) = match read_first(paths, setup, token_file) {
        Ok(read) => read,
        Err(stop) => {
            drop(start);
            return Ran {
                left: None,
                ended: Err(stop),
            };
        }
    };
    match opened(paths, db, config, start) {
        Ok(mut replica) => {
            let mut watch = paths.watch(db);
            let worked = work_on(
                rt,
                paths,
                &mut replica,
                work,
                tokens.as_ref(),
                &mut watch,
                dial,
                gone,
                sockets,
                reader,
                writer,
            );
            drop(tokens);
            let harm = paths.look(&mut watch);
            drop(watch);
            let (left, ended) = finish(db, replica, worked, harm);
            Ran {
                left: Some(left),
                ended,
            }
        }
        Err(stop) => {
            drop(tokens);
            Ran {
                left: None,
                ended: Err(stop),
            }
        }
    }
}

/// What a site is set up with, and the tokens of the command, each of which may stand in a file.
fn read_first<'a>(
    paths: &Paths<'_>,
    setup: Setup<'a>,
    token_file: Option<&'a str>,
) -> Result<(Config, Option<Tokens>), Stop<'a>>
    requires { IsSetUp setup }
    ensures read { IfOk result (λ read. IsConfigFor setup.entry read.0 × (is_some read.1 ≡ is_some token_file.entry)) }
    // It is stopped only by such a file.
    ensures stopped { IfErr result (λ stop. StopsAtDefs setup.entry.defs stop ⊎ StopsAtToken token_file.entry stop) }
{
    let config = config_in(paths, setup)?;
    match tokens_in(paths, token_file) {
        Ok(tokens) => Ok((config, tokens)),
        Err(stop) => {
            drop(config);
            Err(stop)
        }
    }
}

/// Does what is to be done with a stored site.
fn work_on<'a, N: Net, S: Alter + Drop, D: Dial, K: Sockets, R: BufRead, W: Write>(
    rt: &N,
    paths: &Paths<'_>,
    replica: &mut Replica<S>,
    work: Work<'_>,
    tokens: Option<&Tokens>,
    watch: &mut Watch,
    dial: &D,
    gone: &mut Gone<D::Dialed>,
    sockets: &mut K,
    reader: &mut R,
    writer: &mut W,
) -> Result<(), Stop<'a>>
    requires { MayWork work }
    // However it ends, this alone was done to the site.
    ensures { (calls : List (List Turn)) × DoesTask K.Sockets D.Dialed.Line (D.gives dial.now) (task_of work.entry)
        (option_copied tokens.entry) (outside sockets.old gone.old (R.remaining reader.old) (W.contents writer.old)) replica.old
        (outside sockets.new gone.new (R.remaining reader.new) (W.contents writer.new)) replica.new calls result }
{
    match work {
        Work::Serve(address, terms, peers) => {
            let terms = Terms { tokens, ..terms };
            serve_stored(
                rt, paths, sockets, replica, address, terms, peers, watch, writer,
            )
        }
        Work::Shell => typed(paths.alloc(), replica, reader, writer),
        Work::Sync(address, idle, verbose) => synced(
            paths,
            replica,
            address,
            idle,
            first_of(tokens),
            gone,
            verbose,
            dial,
            writer,
        ),
    }
}

/// A session of a stored site with what an address leads to, told on standard error, too.
fn synced<'a, S: Alter + Drop, D: Dial, W: Write>(
    paths: &Paths<'_>,
    replica: &mut Replica<S>,
    address: SocketAddr,
    idle: u32,
    token: Option<&Token>,
    gone: &mut Gone<D::Dialed>,
    verbose: bool,
    dial: &D,
    writer: &mut W,
) -> Result<(), Stop<'a>>
    ensures { TellsSession D.Dialed.Line (D.gives dial.now address) (option_copied token.entry) address
        gone.old gone.new replica.old replica.new (W.contents writer.old) (W.contents writer.new) result }
{
    let mut errors = paths.errors();
    sync_told(
        dial,
        paths.alloc(),
        replica,
        address,
        idle,
        token,
        gone,
        verbose,
        writer,
        &mut errors,
    )
}
