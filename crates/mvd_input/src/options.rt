//! What the options of a command say.
ghost use Rattle.std.specs.Prelude.{◌≡◌, ◌≤◌, IfErr, IfOk, IfSome, false, option_map};
ghost use Rattle.std.specs.Option.{option_map_or};
ghost use Rattle.clap.specs.Words.{first_of};
ghost use Rattle.mvd_input.specs.Orders.{AreClients, ArePeers, HasPort, IsAddressOfOrder, IsClients, IsConns, IsDbOf, IsHttp};
ghost use Rattle.mvd_input.specs.Orders.{IsIdleTime, IsIpOf, IsPeersOf, IsPort, IsSeconds};
ghost use Rattle.mvd_input.specs.Orders.{IsTokenFile, IsUnreadValue, ReadsGiven, ReadsNumber, is_given_option, is_word};
ghost use Rattle.mvd_input.specs.Orders.{AreNamed, IsNamedOf, are_names, options_of};

use crate::addresses::is_address_list;
use crate::command::number_of;
use crate::name_lists::is_name_list;
use clap::ArgMatches;
use clap::parser::ValueSource;
use std::net::{IpAddr, SocketAddr};

/// The most connections that a server may be asked to serve.
const MOST_CONNECTIONS: u64 = 1_000;

/// The last port.
const MOST_PORT: u64 = 65_535;

/// The most seconds for which no byte need move.
const MOST_IDLE: u64 = 86_400;

/// The most clients that a server may be asked to serve at once.
const MOST_CLIENTS: u64 = 10_000;

/// The most seconds between two sessions.
const MOST_EVERY: u64 = 3_600;

/// What a shell needs.
const NEITHER: &str = "'--db <FILE>' with '--site <N>', or '--port <P>', is missing";

/// What is told of a list of peers that is none, and of what goes with one alone.
const NO_PEERS: &str =
    "invalid value for '--peer <LIST>': it is no list of 1 to 16 ports and addresses with ports";

/// What is told of lists of names that are none.
const NO_HOSTS: &str =
    "invalid value for '--host <LIST>': it is no list of 1 to 16 names of at most 4096 bytes";

const NO_ORIGINS: &str =
    "invalid value for '--origin <LIST>': it is no list of 1 to 16 origins of at most 4096 bytes";

const ONLY_PEERS: &str = "'--every <S>' goes with '--peer <LIST>'";

/// The servers that a server meets by itself: a list, which `addresses_of` reads. Each is met again `every`
/// seconds, 1 to 3,600, after it was met, or sooner.
#[derive(Clone, Copy, PartialEq, Eq)]
pub struct Peers<'a> {
    pub list: &'a str,
    pub every: u32,
}

/// The names of a server beside its addresses and `localhost`, and the origins beside its own whose pages may ask it: each
/// a list of 1 to 16 texts with commas between them.
#[derive(Clone, Copy, PartialEq, Eq)]
pub struct Named<'a> {
    pub hosts: Option<&'a str>,
    pub origins: Option<&'a str>,
}

/// Why the options of a command mean no order.
#[derive(Clone, Copy)]
pub(crate) enum Unread {
    /// The number of this option is out of its range, which is 1 to `most`.
    Range { option: &'static str, most: u64 },
    /// This is amiss.
    Text(&'static str),
}

/// Whether an option is among the words, and has not its default.
pub(crate) fn is_given(matches: &ArgMatches<'_>, option: &str) -> bool
    ensures { result ≡ is_given_option (options_of matches.now) option.now }
{
    is_word(matches.value_source(option))
}

/// Whether a value came from the words.
fn is_word(source: Option<ValueSource>) -> bool
    ensures { result ≡ option_map_or is_word source false }
{
    match source {
        Some(ValueSource::CommandLine) => true,
        Some(ValueSource::DefaultValue) => false,
        None => false,
    }
}

/// The value of an option, as it is written, or its default.
pub(crate) fn text_in<'a>(matches: &ArgMatches<'a>, option: &str) -> Option<&'a str>
    ensures { first_of option.now (options_of matches.now) ≡ option_map (λ text. text.now) result }
{
    matches.get_str(option)
}

/// The file of a database.
pub(crate) fn db_in<'a>(matches: &ArgMatches<'a>) -> Result<&'a str, Unread>
    ensures found { IfOk result (IsDbOf (options_of matches.now)) }
    ensures fault { IfErr result (IsUnreadValue (options_of matches.now) IsDbOf) }
{
    match text_in(matches, "db") {
        Some(db) => Ok(db),
        None => Err(Unread::Text("the option '--db <FILE>' is missing")),
    }
}

/// The file with the token, where it is given.
pub(crate) fn token_file_in<'a>(matches: &ArgMatches<'a>) -> Option<&'a str>
    ensures { IsTokenFile (options_of matches.now) result }
{
    text_in(matches, "token-file")
}

/// The number of an option, where it is given: `Range` where it is 0 or too great.
fn number_in(
    matches: &ArgMatches<'_>,
    option: &'static str,
    most: u64,
) -> Result<Option<u64>, Unread>
    ensures { ReadsNumber (options_of matches.now) option.now most result }
{
    let Some(text) = text_in(matches, option) else {
        return Ok(None);
    };
    match number_of(text) {
        Some(number) if number == 0 || number > most => Err(Unread::Range { option, most }),
        Some(number) => Ok(Some(number)),
        None => Err(Unread::Text("a number has a sign, or a zero that leads")),
    }
}

/// The number of an option that is given: `Range` where it is 0 or too great.
pub(crate) fn given_in(
    matches: &ArgMatches<'_>,
    option: &'static str,
    most: u64,
) -> Result<u64, Unread>
    ensures { ReadsGiven (options_of matches.now) option.now most result }
{
    match number_in(matches, option, most)? {
        Some(number) => Ok(number),
        None => Err(Unread::Text(missing(option))),
    }
}

/// What is told where an option is missing that has no default. Only a shell and `sync` can come to that.
fn missing(option: &str) -> &'static str {
    match option {
        "site" => "the option '--site <N>' is missing",
        _ => NEITHER,
    }
}

pub(crate) fn conns_in(matches: &ArgMatches<'_>) -> Result<Option<u32>, Unread>
    ensures range { IfOk result (λ found. IfSome found (λ n. (1 ≤ n) × (n ≤ 1000))) }
    ensures count { IfOk result (IsConns (options_of matches.now)) }
    ensures fault { IfErr result (IsUnreadValue (options_of matches.now) IsConns) }
{
    match number_in(matches, "conns", MOST_CONNECTIONS)? {
        Some(number) => Ok(Some(number as u32)),
        None => Ok(None),
    }
}

/// The port at which HTTP is served.
pub(crate) fn http_in(matches: &ArgMatches<'_>) -> Result<Option<u16>, Unread>
    ensures range { IfOk result IsPort }
    ensures port { IfOk result (IsHttp (options_of matches.now)) }
    ensures fault { IfErr result (IsUnreadValue (options_of matches.now) IsHttp) }
{
    match number_in(matches, "http", MOST_PORT)? {
        Some(number) => Ok(Some(number as u16)),
        None => Ok(None),
    }
}

/// The seconds for which no byte need move.
pub(crate) fn idle_in(matches: &ArgMatches<'_>) -> Result<u32, Unread>
    ensures range { IfOk result IsIdleTime }
    ensures idle { IfOk result (IsSeconds (options_of matches.now)) }
    ensures fault { IfErr result (IsUnreadValue (options_of matches.now) IsSeconds) }
{
    Ok(given_in(matches, "idle", MOST_IDLE)? as u32)
}

/// How many clients are served at once.
pub(crate) fn clients_in(matches: &ArgMatches<'_>) -> Result<u32, Unread>
    ensures range { IfOk result AreClients }
    ensures clients { IfOk result (IsClients (options_of matches.now)) }
    ensures fault { IfErr result (IsUnreadValue (options_of matches.now) IsClients) }
{
    Ok(given_in(matches, "clients", MOST_CLIENTS)? as u32)
}

/// The servers that a server meets by itself, where they are told.
pub(crate) fn peers_in<'a>(matches: &ArgMatches<'a>) -> Result<Option<Peers<'a>>, Unread>
    ensures range { IfOk result (λ found. IfSome found ArePeers) }
    ensures peers { IfOk result (IsPeersOf (options_of matches.now)) }
    ensures fault { IfErr result (IsUnreadValue (options_of matches.now) IsPeersOf) }
{
    match text_in(matches, "peer") {
        Some(list) if is_address_list(list) => {
            let every = given_in(matches, "every", MOST_EVERY)? as u32;
            Ok(Some(Peers { list, every }))
        }
        Some(_) => Err(Unread::Text(NO_PEERS)),
        None if is_given(matches, "every") => Err(Unread::Text(ONLY_PEERS)),
        None => Ok(None),
    }
}

/// The names of a server, and the origins whose pages may ask it, where they are told.
pub(crate) fn named_in<'a>(matches: &ArgMatches<'a>) -> Result<Named<'a>, Unread>
    ensures range { IfOk result AreNamed }
    ensures named { IfOk result (IsNamedOf (options_of matches.now)) }
    ensures fault { IfErr result (IsUnreadValue (options_of matches.now) IsNamedOf) }
{
    let hosts = text_in(matches, "host");
    let origins = text_in(matches, "origin");
    if !are_names(hosts) {
        return Err(Unread::Text(NO_HOSTS));
    }
    if !are_names(origins) {
        return Err(Unread::Text(NO_ORIGINS));
    }
    Ok(Named { hosts, origins })
}

/// Whether a text is a list of names, where it is told.
fn are_names(list: Option<&str>) -> bool
    ensures { result ≡ are_names (option_map (λ text. text.now) list.entry) }
{
    match list {
        Some(list) => is_name_list(list),
        None => true,
    }
}

/// The address of a server, with its port.
pub(crate) fn address_in(matches: &ArgMatches<'_>) -> Result<SocketAddr, Unread>
    ensures range { IfOk result HasPort }
    ensures address { IfOk result (IsAddressOfOrder (options_of matches.now)) }
    ensures fault { IfErr result (IsUnreadValue (options_of matches.now) IsAddressOfOrder) }
{
    let port = given_in(matches, "port", MOST_PORT)? as u16;
    Ok(SocketAddr::new(ip_in(matches)?, port))
}

/// The IP address of a server. Its text is read here, since `clap` reads numbers alone.
fn ip_in(matches: &ArgMatches<'_>) -> Result<IpAddr, Unread>
    ensures found { IfOk result (IsIpOf (options_of matches.now)) }
    ensures fault { IfErr result (IsUnreadValue (options_of matches.now) IsIpOf) }
{
    let Some(text) = text_in(matches, "address") else {
        return Err(Unread::Text("an option is missing"));
    };
    match text.parse::<IpAddr>() {
        Ok(address) => Ok(address),
        Err(_) => Err(Unread::Text("invalid value for '--address <IP>': it is no IP address")),
    }
}
