//! The command line.
ghost use Rattle.std.specs.Prelude.{◌≡◌, IfErr, IfOk, Some, codes, false};
ghost use Rattle.clap.specs.Walk.{texts};
ghost use Rattle.clap.specs.Words.{first_of};
ghost use Rattle.mvd_input.specs.Orders.{IsInRange, IsQuiet, IsSetUp, IsSetupOf, IsUnreadValue, IsVerbose, ReadsOptions};
ghost use Rattle.mvd_input.specs.Orders.{ReadsOrder, ReadsWords, has_file, names_server, options_of, sets_up};

use crate::addresses::address_at;
use crate::command_words::{command, command_of};
use crate::options::{
    Named, Peers, Unread, address_in, clients_in, conns_in, db_in, given_in, http_in, idle_in,
    is_given, named_in, peers_in, text_in, token_file_in,
};
use clap::error::ErrorKind;
use clap::{ArgMatches, Command, Error};
use mvd_dots::Refusal;
use std::alloc::{AllocError, Global};
use std::net::SocketAddr;

/// The most keys that a site may hold, and how many it may where no option says.
pub const MOST_KEYS: u32 = 1_000_000;

/// What a shell cannot have together.
const BOTH: &str = "a shell has '--db <FILE>' with its options, or '--port <P>' with its own";

/// What a session cannot have together.
const FILE_AND_SERVER: &str =
    "a session has '--db <FILE>' with its options, or '--with <SERVER>' between two servers";

/// What is told of a server that has one port for both.
const ONE_PORT: &str = "'--http <P2>' has to be another port than '--port <P>'";

/// What is told of a server that is none.
const NO_SERVER: &str =
    "invalid value for '--with <SERVER>': it is no port and no address with a port";

/// What a site is set up with: its number is at least 1, and it may hold 1 to 1,000,000 keys. A file may define its
/// indexes and views.
#[derive(Clone, Copy, PartialEq, Eq)]
pub struct Setup<'a> {
    pub site: u32,
    pub defs: Option<&'a str>,
    pub max_keys: u32,
}

/// What a command line asks for. Numbers are in their ranges: those of a site as told there, a port at least 1,
/// `conns` 1 to 1,000, `idle` 1 to 86,400 seconds, and `clients` 1 to 10,000. The port `http` is another than that of
/// `address`. The first line of a `token_file` is the token that a server asks for, or that it is shown. A server
/// meets its `peers` by itself. Over HTTP it may be asked by names, and by pages of other origins (`named`). Where it is
/// `quiet`, it does not tell what ends well.
#[derive(Clone, Copy, PartialEq, Eq)]
pub enum Order<'a> {
    /// Run a script from standard input.
    Sim,
    /// Answer the requests that stand in hexadecimal on standard input, over a connection within one process.
    Loop(Setup<'a>),
    /// Serve a database to many clients at once.
    Serve {
        db: &'a str,
        setup: Setup<'a>,
        address: SocketAddr,
        conns: Option<u32>,
        idle: u32,
        http: Option<u16>,
        clients: u32,
        peers: Option<Peers<'a>>,
        named: Named<'a>,
        quiet: bool,
        token_file: Option<&'a str>,
    },
    /// Answer the lines of standard input on a database.
    Shell {
        db: &'a str,
        setup: Setup<'a>,
    },
    /// Answer the lines of standard input through a server.
    RemoteShell {
        address: SocketAddr,
        idle: u32,
        token_file: Option<&'a str>,
    },
    /// Run a session of a database with a server.
    Sync {
        db: &'a str,
        setup: Setup<'a>,
        address: SocketAddr,
        idle: u32,
        verbose: bool,
        token_file: Option<&'a str>,
    },
    /// Run a session of two servers.
    Meet {
        address: SocketAddr,
        with: SocketAddr,
        idle: u32,
        verbose: bool,
        token_file: Option<&'a str>,
    },
}

/// Why a command line asks for nothing.
#[derive(Drop)]
pub enum OrderFault {
    /// Its words are none of the program's, or they ask for help.
    Words(Error),
    /// The number of this option, whose name has no `--` here, is out of its range, which is 1 to `most`.
    Range { option: &'static str, most: u64 },
    /// Memory was refused.
    Stopped(Refusal),
}

impl From<Error> for OrderFault {
    ghost use Rattle.mvd_input.specs.Orders.{IsFaultBy};

    ghost from_gives = { IsFaultBy };

    fn from(error: Error) -> OrderFault {
        match error.kind() {
            ErrorKind::OutOfMemory => OrderFault::Stopped(Refusal::Memory),
            _ => OrderFault::Words(error),
        }
    }
}

impl From<AllocError> for OrderFault {
    ghost use Rattle.std.specs.Prelude.{◌≡◌};
    ghost use Rattle.mvd_dots.specs.declared.refusals.Refusal.TheVariants.{Memory};
    ghost use Rattle.mvd_input.specs.declared.order.OrderFault.TheVariants.{Stopped};

    ghost from_gives = { λ _ fault. fault ≡ Stopped Memory };

    fn from(_error: AllocError) -> OrderFault {
        OrderFault::Stopped(Refusal::Memory)
    }
}

/// What the words ask for, of which the first is the program's own name.
pub fn order_of<'a>(alloc: Global, words: &'a [&'a str]) -> Result<Order<'a>, OrderFault>
    ensures words { ReadsWords (texts words.now) result }
    ensures range { IfOk result IsInRange }
{
    let matches = command(alloc)?.try_get_matches_from(words)?;
    match matches.subcommand() {
        Some((name, matches)) => order_in(alloc, name, matches),
        None => Err(refused(alloc, "", "a command is missing")?),
    }
}

/// The order that the command of a name is, by its matches.
fn order_in<'a>(
    alloc: Global,
    name: &str,
    matches: &ArgMatches<'a>,
) -> Result<Order<'a>, OrderFault>
    ensures { ReadsOrder name.now (options_of matches.now) result }
{
    match read_in(name, matches) {
        Ok(order) => Ok(order),
        Err(Unread::Range { option, most }) => Err(OrderFault::Range { option, most }),
        Err(Unread::Text(message)) => Err(refused(alloc, name, message)?),
    }
}

fn read_in<'a>(name: &str, matches: &ArgMatches<'a>) -> Result<Order<'a>, Unread>
    ensures { ReadsOptions name.now (options_of matches.now) result }
{
    match name {
        "sim" => Ok(Order::Sim),
        "loop" => Ok(Order::Loop(setup_in(matches)?)),
        "serve" => serve_of(matches),
        "shell" => shell_of(matches),
        "sync" => sync_of(matches),
        _ => Err(Unread::Text("there is no such command")),
    }
}

fn serve_of<'a>(matches: &ArgMatches<'a>) -> Result<Order<'a>, Unread>
    ensures { ReadsOptions (codes "serve") (options_of matches.now) result }
{
    let address = address_in(matches)?;
    let http = http_in(matches)?;
    if http == Some(address.port()) {
        return Err(Unread::Text(ONE_PORT));
    }
    Ok(Order::Serve {
        db: db_in(matches)?,
        setup: setup_in(matches)?,
        address,
        conns: conns_in(matches)?,
        idle: idle_in(matches)?,
        http,
        clients: clients_in(matches)?,
        peers: peers_in(matches)?,
        named: named_in(matches)?,
        quiet: is_quiet(matches),
        token_file: token_file_in(matches),
    })
}

/// Whether a server tells faults alone.
fn is_quiet(matches: &ArgMatches<'_>) -> bool
    ensures { IsQuiet (options_of matches.now) result }
{
    text_in(matches, "quiet") == Some("true")
}

fn sync_of<'a>(matches: &ArgMatches<'a>) -> Result<Order<'a>, Unread>
    ensures { ReadsOptions (codes "sync") (options_of matches.now) result }
{
    match text_in(matches, "with") {
        Some(_) if has_file(matches) => Err(Unread::Text(FILE_AND_SERVER)),
        Some(with) => meet_of(matches, with),
        None => Ok(Order::Sync {
            db: db_in(matches)?,
            setup: setup_in(matches)?,
            address: address_in(matches)?,
            idle: idle_in(matches)?,
            verbose: is_verbose(matches),
            token_file: token_file_in(matches),
        }),
    }
}

/// A session of two servers.
fn meet_of<'a>(matches: &ArgMatches<'a>, with: &'a str) -> Result<Order<'a>, Unread>
    requires with { first_of (codes "with") (options_of matches.now) ≡ Some with.now }
    requires alone { has_file (options_of matches.now) ≡ false }
    ensures { ReadsOptions (codes "sync") (options_of matches.now) result }
{
    let address = address_in(matches)?;
    let Some(with) = address_at(address.ip(), with) else {
        return Err(Unread::Text(NO_SERVER));
    };
    Ok(Order::Meet {
        address,
        with,
        idle: idle_in(matches)?,
        verbose: is_verbose(matches),
        token_file: token_file_in(matches),
    })
}

/// Whether it is told how far a session is.
fn is_verbose(matches: &ArgMatches<'_>) -> bool
    ensures { IsVerbose (options_of matches.now) result }
{
    text_in(matches, "verbose") == Some("true")
}

fn shell_of<'a>(matches: &ArgMatches<'a>) -> Result<Order<'a>, Unread>
    ensures { ReadsOptions (codes "shell") (options_of matches.now) result }
{
    match text_in(matches, "db") {
        Some(_) if names_server(matches) => Err(Unread::Text(BOTH)),
        None if sets_up(matches) => Err(Unread::Text(BOTH)),
        Some(db) => Ok(Order::Shell {
            db,
            setup: setup_in(matches)?,
        }),
        None => Ok(Order::RemoteShell {
            address: address_in(matches)?,
            idle: idle_in(matches)?,
            token_file: token_file_in(matches),
        }),
    }
}

/// Whether the words of a shell name a server.
fn names_server(matches: &ArgMatches<'_>) -> bool
    ensures { result ≡ names_server (options_of matches.now) }
{
    is_given(matches, "port")
        || is_given(matches, "address")
        || is_given(matches, "idle")
        || is_given(matches, "token-file")
}

/// Whether the words name a database, or say how a site is set up.
fn has_file(matches: &ArgMatches<'_>) -> bool
    ensures { result ≡ has_file (options_of matches.now) }
{
    is_given(matches, "db") || sets_up(matches)
}

/// Whether the words say how a site is set up.
fn sets_up(matches: &ArgMatches<'_>) -> bool
    ensures { result ≡ sets_up (options_of matches.now) }
{
    is_given(matches, "site") || is_given(matches, "defs") || is_given(matches, "max-keys")
}

/// What the options of a site say.
fn setup_in<'a>(matches: &ArgMatches<'a>) -> Result<Setup<'a>, Unread>
    ensures range { IfOk result IsSetUp }
    ensures setup { IfOk result (IsSetupOf (options_of matches.now)) }
    ensures fault { IfErr result (IsUnreadValue (options_of matches.now) IsSetupOf) }
{
    Ok(Setup {
        site: given_in(matches, "site", 4_294_967_295)? as u32,
        defs: text_in(matches, "defs"),
        max_keys: given_in(matches, "max-keys", u64::from(MOST_KEYS))? as u32,
    })
}

/// What is told of words that are none of the program's, with the usage of the command of a name.
fn refused(alloc: Global, name: &str, message: &str) -> Result<OrderFault, AllocError>
    ensures { IfOk result (λ fault. (error : Error) × (fault ≡ OrderFault.Words error)) }
{
    let error = command_in(alloc, name)?.error(ErrorKind::ValueValidation, message)?;
    Ok(OrderFault::Words(error))
}

/// The command of a name, which its usage calls by the program's name too.
fn command_in<'a>(alloc: Global, name: &str) -> Result<Command<'a>, AllocError> {
    let usage = format!(in alloc; "mvd {name}")?;
    command_of(alloc, name)?.bin_name(usage.trim_end())
}
