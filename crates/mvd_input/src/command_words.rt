//! The words that a command line may hold, and the help that it gives.
ghost use Rattle.std.specs.Prelude.{◌≡◌, IfOk, Ok};
ghost use Rattle.clap.specs.Words.{AddsSubcommand, app_of, new_app, rule_of};
ghost use Rattle.clap.specs.declared.builder.command.Command.{Command};
ghost use Rattle.mvd_input.specs.Words as spec;

use clap::{Arg, ArgAction, Command, value_parser};
use std::alloc::{AllocError, Global};

/// The version, and what `--version` tells behind the program's name.
pub const RELEASE: &str = "0.3.0";

const VERSION: &str = "0.3.0, format version 2";

/// What stands at the end of the help.
const FIRST: &str = "\
Example: echo 'put k - {\"a\":1}' | mvd shell --db a.db --site 1

Where a command is stopped, standard error says `mvd: fault N Name`, and on the next line where that came from and \
what to do about it.
docs/USING.md lists the faults.";

const SIM: &str =
    "Runs a script over several sites. The script is read from standard input, and what its commands say is printed.";

const LOOP: &str =
    "Answers the requests that stand in hexadecimal on standard input. A client and a server meet over one \
                    connection within this process, and the states are stored in memory. Each reply is printed as one \
                    line of hexadecimal, and then how the connection ended.";

const SERVE: &str =
    "Serves a database to many clients at once. It prints where it listens, how each \
                     connection ended, and, after the last one, the digest of all that it holds. Each write is stored \
                     before its reply leaves.";

const SERVE_EXAMPLES: &str = "\
Example: mvd serve --db a.db --site 1 --port 7007
         mvd serve --db a.db --site 1 --port 7007 --http 8080 --peer 7008,192.0.2.1:7007";

const SERVED_IDLE: &str =
    "The seconds after which a connection ends on which no byte moves, 1 to 86400.";

const PEER: &str =
    "The servers that this one meets by itself while it serves: 1 to 16 items with commas between them, each a port \
                    at the same IP address, or an address with its port, as 192.0.2.1:7007 or [::1]:7007. Where \
                    there is a token, it is shown to each of them.";

const HOST: &str =
    "The names by which this server may be asked over HTTP, beside its addresses and localhost: 1 to 16 with commas \
                    between them, each in lower case and without a port, as db.example.com. Where there is a token, \
                    it may be asked by any name.";

const ORIGIN: &str =
    "The origins whose pages may ask this server over HTTP, beside its own: 1 to 16 with commas between them, each as \
                      https://app.example.com. Give it a token, too: a page asks from wherever its reader is.";

const EVERY: &str =
    "The seconds after which each peer is met again, 1 to 3600. It is met sooner where something was written here.";

const IDLE: &str =
    "The seconds after which a server is given up from which no byte comes, 1 to 86400.";

const SHELL: &str =
    "Answers the lines of standard input, each at once, on a database or through a server. The line `help` lists what \
                     may be asked.";

const SHELL_USAGE: &str = "\
mvd shell --db <FILE> --site <N> [--defs <FILE>] [--max-keys <N>]
       mvd shell --port <P> [--address <IP>] [--idle <S>] [--token-file <FILE>]";

const SHELL_EXAMPLES: &str = "\
Example: echo 'put k - {\"a\":1}' | mvd shell --db a.db --site 1
         echo 'get k' | mvd shell --port 7007";

const SHELL_PORT: &str = "The port of a server, 1 to 65535, in place of a database.";

const SYNC: &str =
    "Runs a session of a database with a server, or of two servers, after which both sides hold all that one of them \
                    held before. It prints how many keys crossed, and the digest of all that is held then.";

const SYNC_USAGE: &str = "\
mvd sync --db <FILE> --site <N> --port <P> [--defs <FILE>] [--max-keys <N>] [--address <IP>] [--idle <S>] \
                          [--verbose] [--token-file <FILE>]
       mvd sync --port <P> --with <SERVER> [--address <IP>] [--idle <S>] [--verbose] [--token-file <FILE>]";

const WITH: &str =
    "The server that meets the one at the port, in place of a database: a port at the same IP address, or an address \
                    with its port, as 192.0.2.1:7007 or [::1]:7007.";

const SERVED_TOKEN: &str =
    "Only who shows a token of this file is served: of 1 to 64 lines, each a token of 16 to 256 printable ASCII \
                    characters without a space, then a blank and read or write or nothing (write), then a blank \
                    and a prefix of keys or nothing (all keys).";

const TOKEN: &str =
    "The token that the server wants: the first of this file, 16 to 256 printable ASCII characters without a space.";

/// The program's command, with one command below it for each order.
pub fn command<'a>(alloc: Global) -> Result<Command<'a>, AllocError>
    ensures { IfOk result (λ command. app_of command ≡ spec.program) }
{
    let sim = named(
        alloc,
        "sim",
        SIM,
        "Example: mvd sim < examples/siblings.mvd",
    );
    let command = Command::new(alloc, "mvd")
        .about("A multi-value JSON document map with causal contexts.")
        .after_help(FIRST)
        .version(VERSION)
        .subcommand_required(true)
        .arg_required_else_help(true)
        .subcommand(sim);
    let command = with_below(command, loop_command(alloc));
    let command = with_below(command, serve_command(alloc));
    let command = with_below(command, shell_command(alloc));
    with_below(command, sync_command(alloc))
}

/// A command with one more below it, if both were made.
fn with_below<'a>(
    command: Result<Command<'a>, AllocError>,
    below: Result<Command<'a>, AllocError>,
) -> Result<Command<'a>, AllocError>
    ensures { IfOk result (λ r. (a : Command) × (b : Command) × (command.entry ≡ Ok a) × (below.entry ≡ Ok b) ×
        AddsSubcommand a b r) }
{
    command?.subcommand(below?)
}

/// The command of a name, or the program's.
pub fn command_of<'a>(alloc: Global, name: &str) -> Result<Command<'a>, AllocError> {
    match name {
        "loop" => loop_command(alloc),
        "serve" => serve_command(alloc),
        "shell" => shell_command(alloc),
        "sync" => sync_command(alloc),
        _ => command(alloc),
    }
}

fn loop_command<'a>(alloc: Global) -> Result<Command<'a>, AllocError>
    ensures { IfOk result (λ command. app_of command ≡ spec.loop_words) }
{
    let options = vec![in alloc; site(alloc), defs(alloc), max_keys(alloc)]?;
    named(
        alloc,
        "loop",
        LOOP,
        "Example: echo 00000003210161 | mvd loop --site 1",
    )
    .args(options)
}

fn serve_command<'a>(alloc: Global) -> Result<Command<'a>, AllocError>
    ensures { IfOk result (λ command. app_of command ≡ spec.serve_words) }
{
    let options = vec![in alloc;
        db(alloc),
        site(alloc),
        defs(alloc),
        max_keys(alloc),
        address(alloc),
        port(alloc, "The port to listen at, 1 to 65535."),
        http(alloc),
        conns(alloc),
        idle(alloc, SERVED_IDLE, "300"),
        clients(alloc),
        peer(alloc),
        every(alloc),
        host(alloc),
        origin(alloc),
        quiet(alloc),
        token_file(alloc, SERVED_TOKEN),
    ]?;
    named(alloc, "serve", SERVE, SERVE_EXAMPLES).args(options)
}

fn shell_command<'a>(alloc: Global) -> Result<Command<'a>, AllocError>
    ensures { IfOk result (λ command. app_of command ≡ spec.shell_words) }
{
    let options = vec![in alloc;
        db(alloc).required(false),
        site(alloc).required(false),
        defs(alloc),
        max_keys(alloc),
        port(alloc, SHELL_PORT).required(false),
        address(alloc),
        idle(alloc, IDLE, "60"),
        token_file(alloc, TOKEN),
    ]?;
    named(alloc, "shell", SHELL, SHELL_EXAMPLES)
        .override_usage(SHELL_USAGE)
        .args(options)
}

fn sync_command<'a>(alloc: Global) -> Result<Command<'a>, AllocError>
    ensures { IfOk result (λ command. app_of command ≡ spec.sync_words) }
{
    let options = vec![in alloc;
        db(alloc).required(false),
        site(alloc).required(false),
        defs(alloc),
        max_keys(alloc),
        address(alloc),
        port(alloc, "The port of the server, 1 to 65535."),
        with(alloc),
        idle(alloc, IDLE, "60"),
        verbose(alloc),
        token_file(alloc, TOKEN),
    ]?;
    named(
        alloc,
        "sync",
        SYNC,
        "Example: mvd sync --db b.db --site 2 --port 7007\n         mvd sync --port 7007 --with 7008",
    )
    .override_usage(SYNC_USAGE)
    .args(options)
}

/// A command below the program's: what it does, and an example of it.
fn named<'a>(alloc: Global, name: &'a str, about: &'a str, example: &'a str) -> Command<'a>
    ensures { app_of result ≡ new_app name.now }
{
    Command::new(alloc, name).about(about).after_help(example)
}

fn db<'a>(alloc: Global) -> Arg<'a>
    ensures { rule_of result ≡ spec.needed spec.db }
{
    text(
        alloc,
        "db",
        "FILE",
        "The file of the database. It is made where it is missing.",
    )
    .required(true)
}

fn address<'a>(alloc: Global) -> Arg<'a>
    ensures { rule_of result ≡ spec.address }
{
    text(
        alloc,
        "address",
        "IP",
        "The IP address of the server. Nothing is encrypted, not even a token: put it behind a tunnel.",
    )
    .default_value("127.0.0.1")
}

fn site<'a>(alloc: Global) -> Arg<'a>
    ensures { rule_of result ≡ spec.needed spec.site }
{
    number(
        alloc,
        "site",
        "N",
        "The number of this site, 1 to 4294967295, which no other site has.",
    )
    .required(true)
}

fn port<'a>(alloc: Global, help: &'a str) -> Arg<'a>
    ensures { rule_of result ≡ spec.needed spec.port }
{
    number(alloc, "port", "P", help).required(true)
}

fn defs<'a>(alloc: Global) -> Arg<'a>
    ensures { rule_of result ≡ spec.defs }
{
    text(
        alloc,
        "defs",
        "FILE",
        "A file with a script's `index` and `view` lines.",
    )
}

fn max_keys<'a>(alloc: Global) -> Arg<'a>
    ensures { rule_of result ≡ spec.max_keys }
{
    number(
        alloc,
        "max-keys",
        "N",
        "The most keys that the site may hold, 1 to 1000000.",
    )
    .default_value("1000000")
}

fn http<'a>(alloc: Global) -> Arg<'a>
    ensures { rule_of result ≡ spec.http }
{
    number(
        alloc,
        "http",
        "P2",
        "Another port, 1 to 65535, at which the same is served over HTTP, with a page for browsers.",
    )
}

fn conns<'a>(alloc: Global) -> Arg<'a>
    ensures { rule_of result ≡ spec.conns }
{
    number(
        alloc,
        "conns",
        "C",
        "How many connections are served in all, 1 to 1000. Without it the server goes on until it is stopped.",
    )
}

fn clients<'a>(alloc: Global) -> Arg<'a>
    ensures { rule_of result ≡ spec.clients }
{
    number(
        alloc,
        "clients",
        "N",
        "How many clients are served at once, 1 to 10000. A further one is told that there is no place.",
    )
    .default_value("256")
}

fn with<'a>(alloc: Global) -> Arg<'a>
    ensures { rule_of result ≡ spec.with }
{
    text(alloc, "with", "SERVER", WITH)
}

fn peer<'a>(alloc: Global) -> Arg<'a>
    ensures { rule_of result ≡ spec.peer }
{
    text(alloc, "peer", "LIST", PEER)
}

fn host<'a>(alloc: Global) -> Arg<'a>
    ensures { rule_of result ≡ spec.host }
{
    text(alloc, "host", "LIST", HOST)
}

fn origin<'a>(alloc: Global) -> Arg<'a>
    ensures { rule_of result ≡ spec.origin }
{
    text(alloc, "origin", "LIST", ORIGIN)
}

fn every<'a>(alloc: Global) -> Arg<'a>
    ensures { rule_of result ≡ spec.every }
{
    number(alloc, "every", "S", EVERY).default_value("30")
}

fn idle<'a>(alloc: Global, help: &'a str, seconds: &'a str) -> Arg<'a>
    ensures { rule_of result ≡ spec.idle seconds.now }
{
    number(alloc, "idle", "S", help).default_value(seconds)
}

fn verbose<'a>(alloc: Global) -> Arg<'a>
    ensures { rule_of result ≡ spec.verbose }
{
    Arg::new(alloc, "verbose")
        .long("verbose")
        .action(ArgAction::SetTrue)
        .help("Tell on standard error, after each thousand states, how many came or went so far.")
}

fn quiet<'a>(alloc: Global) -> Arg<'a>
    ensures { rule_of result ≡ spec.quiet }
{
    Arg::new(alloc, "quiet")
        .long("quiet")
        .action(ArgAction::SetTrue)
        .help("Tell faults alone: of connections that ended well, and of sessions, print nothing.")
}

fn token_file<'a>(alloc: Global, help: &'a str) -> Arg<'a>
    ensures { rule_of result ≡ spec.token_file }
{
    text(alloc, "token-file", "FILE", help)
}

/// An option whose value is a text.
fn text<'a>(alloc: Global, name: &'a str, value: &'a str, help: &'a str) -> Arg<'a>
    ensures { rule_of result ≡ spec.text_option name.now }
{
    Arg::new(alloc, name)
        .long(name)
        .value_name(value)
        .help(help)
}

/// An option whose value is a number.
fn number<'a>(alloc: Global, name: &'a str, value: &'a str, help: &'a str) -> Arg<'a>
    ensures { rule_of result ≡ spec.number_option name.now }
{
    text(alloc, name, value, help).value_parser(value_parser!(u64))
}
