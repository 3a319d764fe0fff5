//! Command lines, and what comes of each.

/// What comes of a line: an order of this command, a number of this option that is out of its range, which ends
/// here, or a refusal or a help that says this.
#[derive(Clone, Copy)]
pub enum Wanted {
    Serve,
    Sync,
    Meet,
    MeetThere,
    MeetOther,
    ServeToken,
    SyncToken,
    MeetToken,
    Named,
    NamedMost,
    Quiet,
    Peer,
    Peers,
    PeersLeast,
    PeersMost,
    RemoteShellToken,
    Loop,
    Sim,
    Shell,
    RemoteShell,
    Range(&'static str, u64),
    Says(&'static str),
}

const BAD_ADDRESS: &str = "mvd serve --db f --site 1 --port 1 --address here";

const SHELL: &str =
    "Usage: mvd shell --db <FILE> --site <N> [--defs <FILE>] [--max-keys <N>]\n       \
    mvd shell --port <P>";

/// The longest list.
pub const SIXTEEN: &str = "1,2,3,4,5,6,7,8,9,10,11,12,13,14,15,9";

/// The longest list of names.
pub const NAMES: &str = "a,b,c,d,e,f,g,h,i,j,k,l,m,n,o,p";

/// What stands behind the words of a server, and what comes of both.
pub const PEERS: &[(&str, Wanted)] = &[
    (
        "--host db.example --origin https://a.example,http://b:1",
        Wanted::Named,
    ),
    ("--host a,b,c,d,e,f,g,h,i,j,k,l,m,n,o,p", Wanted::NamedMost),
    (
        "--host a,b,c,d,e,f,g,h,i,j,k,l,m,n,o,p,q",
        Wanted::Says("'--host <LIST>': it is no list"),
    ),
    ("--host=", Wanted::Says("it is no list")),
    (
        "--origin=",
        Wanted::Says("'--origin <LIST>': it is no list"),
    ),
    ("--quiet", Wanted::Quiet),
    ("--quiet=1", Wanted::Says("--quiet")),
    ("--quiet --quiet", Wanted::Says("--quiet")),
    ("--verbose", Wanted::Says("'--verbose'")),
    ("--peer 2", Wanted::Peer),
    ("--peer 2,10.0.0.1:7007,[::1]:7007 --every 5", Wanted::Peers),
    ("--every 1 --peer [::1]:65535", Wanted::PeersLeast),
    (
        "--peer 1,2,3,4,5,6,7,8,9,10,11,12,13,14,15,9 --every 3600 --token-file t",
        Wanted::PeersMost,
    ),
    ("--peer 2 --every 0", Wanted::Range("every", 3_600)),
    ("--peer 2 --every 3601", Wanted::Range("every", 3_600)),
    (
        "--peer 2 --every 30 --idle 0",
        Wanted::Range("idle", 86_400),
    ),
    ("--peer 0", Wanted::Says("'--peer <LIST>': it is no list")),
    ("--peer 65536", Wanted::Says("it is no list")),
    ("--peer 02", Wanted::Says("it is no list")),
    ("--peer a:1", Wanted::Says("it is no list")),
    ("--peer 10.0.0.1:0", Wanted::Says("it is no list")),
    ("--peer ::1:7", Wanted::Says("it is no list")),
    ("--peer 2,", Wanted::Says("it is no list")),
    ("--peer ,2", Wanted::Says("it is no list")),
    ("--peer 2,,3", Wanted::Says("it is no list")),
    (
        "--peer 1,2,3,4,5,6,7,8,9,10,11,12,13,14,15,16,17",
        Wanted::Says("Usage: mvd serve "),
    ),
    ("--peer", Wanted::Says("'--peer <LIST>'")),
    ("--peer=", Wanted::Says("it is no list")),
    ("--peer 2 --peer 3", Wanted::Says("'--peer <LIST>'")),
    ("--peer 2 --every x", Wanted::Says("")),
    ("--peer 2 --every 05", Wanted::Says("a zero that leads")),
    (
        "--every 5",
        Wanted::Says("'--every <S>' goes with '--peer <LIST>'"),
    ),
    (
        "--every 0",
        Wanted::Says("'--every <S>' goes with '--peer <LIST>'"),
    ),
    ("--with 2", Wanted::Says("'--with'")),
    (
        "--http 1",
        Wanted::Says("'--http <P2>' has to be another port than '--port <P>'"),
    ),
    ("--http 0", Wanted::Range("http", 65_535)),
    ("--help", Wanted::Says("--peer 7008,192.0.2.1:7007")),
];

pub const LINES: &[(&str, Wanted)] = &[
    (
        "mvd serve --db f --site 1 --port 1 --http 65535 --conns 1 --idle 1 --clients 10000",
        Wanted::Serve,
    ),
    (
        "mvd sync --db f --site 4294967295 --port 65535 --defs d --max-keys 1 --address 10.0.0.1 --idle 86400 --verbose",
        Wanted::Sync,
    ),
    ("mvd sync --port 1 --with 2", Wanted::Meet),
    (
        "mvd sync --address 10.0.0.1 --port 1 --with 2",
        Wanted::MeetThere,
    ),
    (
        "mvd sync --port 1 --with [::1]:65535 --idle 1 --verbose",
        Wanted::MeetOther,
    ),
    ("mvd loop --site 7", Wanted::Loop),
    ("mvd sim", Wanted::Sim),
    ("mvd shell --db f --site 2 --max-keys 9", Wanted::Shell),
    ("mvd shell --port 7", Wanted::RemoteShell),
    // With a file that holds a token.
    (
        "mvd serve --db f --site 1 --port 1 --token-file t",
        Wanted::ServeToken,
    ),
    (
        "mvd sync --db f --site 1 --port 1 --token-file t/u",
        Wanted::SyncToken,
    ),
    (
        "mvd sync --port 1 --with 2 --token-file t",
        Wanted::MeetToken,
    ),
    (
        "mvd shell --port 7 --token-file t",
        Wanted::RemoteShellToken,
    ),
    // Numbers out of their ranges.
    (
        "mvd serve --db f --site 0 --port 1 --conns 1",
        Wanted::Range("site", 4_294_967_295),
    ),
    (
        "mvd serve --db f --site 4294967296 --port 1",
        Wanted::Range("site", 4_294_967_295),
    ),
    (
        "mvd serve --db f --site 1 --port 0",
        Wanted::Range("port", 65_535),
    ),
    (
        "mvd serve --db f --site 1 --port 65536",
        Wanted::Range("port", 65_535),
    ),
    (
        "mvd serve --db f --site 1 --port 1 --conns 0",
        Wanted::Range("conns", 1_000),
    ),
    (
        "mvd serve --db f --site 1 --port 1 --http 65536",
        Wanted::Range("http", 65_535),
    ),
    (
        "mvd serve --db f --site 1 --port 1 --conns 1001",
        Wanted::Range("conns", 1_000),
    ),
    (
        "mvd serve --db f --site 1 --port 1 --idle 0",
        Wanted::Range("idle", 86_400),
    ),
    (
        "mvd serve --db f --site 1 --port 1 --clients 0",
        Wanted::Range("clients", 10_000),
    ),
    (
        "mvd serve --db f --site 1 --port 1 --clients 10001",
        Wanted::Range("clients", 10_000),
    ),
    (
        "mvd sync --db f --site 1 --port 1 --idle 86401",
        Wanted::Range("idle", 86_400),
    ),
    (
        "mvd sync --db f --site 1 --port 1 --max-keys 0",
        Wanted::Range("max-keys", 1_000_000),
    ),
    (
        "mvd sync --port 1 --with 2 --idle 0",
        Wanted::Range("idle", 86_400),
    ),
    (
        "mvd loop --site 1 --max-keys 1000001",
        Wanted::Range("max-keys", 1_000_000),
    ),
    (
        "mvd shell --db f --site 0",
        Wanted::Range("site", 4_294_967_295),
    ),
    // Words that are refused, or ask for help.
    ("mvd serve --db f --port 1 --conns 1", Wanted::Says("")),
    ("mvd serve --db f --site x --port 1", Wanted::Says("")),
    (
        "mvd sync --db f --site 1 --port 1 --conns 1",
        Wanted::Says(""),
    ),
    (
        "mvd sync --db f --site 1 --port 1 --clients 2",
        Wanted::Says(""),
    ),
    (
        "mvd sync --db f --site 1 --port 1 --http 2",
        Wanted::Says(""),
    ),
    (
        "mvd sync --port 1",
        Wanted::Says("'--db <FILE>' is missing"),
    ),
    (
        "mvd sync --port 1 --with 0",
        Wanted::Says("'--with <SERVER>': it is no port and no address"),
    ),
    ("mvd sync --port 1 --with 2,", Wanted::Says("it is no port")),
    ("mvd sync --port 1 --with 02", Wanted::Says("it is no port")),
    (
        "mvd sync --port 1 --with a:1",
        Wanted::Says("it is no port"),
    ),
    (
        "mvd sync --port 1 --with 10.0.0.1:0",
        Wanted::Says("it is no port"),
    ),
    (
        "mvd sync --port 1 --with 2,3",
        Wanted::Says("it is no port"),
    ),
    (
        "mvd sync --port 1 --with 2 --db f",
        Wanted::Says("'--db <FILE>' with its options, or '--with <SERVER>'"),
    ),
    (
        "mvd sync --port 1 --with 2 --site 1",
        Wanted::Says("Usage: mvd sync --db <FILE>"),
    ),
    (
        "mvd sync --db f --site 1 --port 1 --every 5",
        Wanted::Says("'--every'"),
    ),
    (
        "mvd sync --port 1 --with 2 --every 5",
        Wanted::Says("'--every'"),
    ),
    (
        "mvd sync --port 1 --with 2 --times 5",
        Wanted::Says("'--times'"),
    ),
    (
        "mvd serve --db f --site 1 --port 1 --token-file",
        Wanted::Says("'--token-file <FILE>'"),
    ),
    (
        "mvd serve --db f --site 1 --port 1 --token-file t --token-file t",
        Wanted::Says("'--token-file <FILE>'"),
    ),
    (
        "mvd sync --port 1 --with 2 --token-file",
        Wanted::Says("'--token-file <FILE>'"),
    ),
    (
        "mvd shell --port 7 --token-file t --token-file u",
        Wanted::Says("'--token-file <FILE>'"),
    ),
    (
        "mvd loop --site 1 --token-file t",
        Wanted::Says("'--token-file'"),
    ),
    ("mvd sim --token-file t", Wanted::Says("'--token-file'")),
    (
        "mvd serve --help",
        Wanted::Says("Only who shows a token of this file is served"),
    ),
    (
        "mvd sync --help",
        Wanted::Says("The token that the server wants"),
    ),
    (
        "mvd shell --help",
        Wanted::Says("The token that the server wants"),
    ),
    ("mvd loop --site 1 --idle 1", Wanted::Says("")),
    ("mvd loop --help", Wanted::Says("")),
    ("mvd", Wanted::Says("")),
    ("mvd shell --db f --site 1 --idle 1", Wanted::Says("")),
    (
        "mvd shell --db f --site 2 --max-keys 9 --token-file=t",
        Wanted::Says("a shell has '--db <FILE>' with its options"),
    ),
    ("mvd shell --port 1 --peer 2", Wanted::Says("'--peer'")),
    (
        "mvd sync --db f --site 1 --port 1 --peer 2",
        Wanted::Says("'--peer'"),
    ),
    ("mvd loop --site 1 --peer 2", Wanted::Says("'--peer'")),
    ("mvd shell --port 1 --every 2", Wanted::Says("'--every'")),
    ("mvd shell --db f --site 1 --port 7", Wanted::Says("")),
    (
        "mvd shell --db f --site 1 --address 127.0.0.1",
        Wanted::Says(""),
    ),
    ("mvd shell --port 7 --site 1", Wanted::Says("")),
    ("mvd shell --port 7 --defs d", Wanted::Says("")),
    ("mvd shell --port 7 --max-keys 1000000", Wanted::Says("")),
    ("mvd shell --site 1", Wanted::Says("")),
    (
        BAD_ADDRESS,
        Wanted::Says("'--address <IP>': it is no IP address"),
    ),
    (BAD_ADDRESS, Wanted::Says("Usage: mvd serve ")),
    ("mvd loop --site +1", Wanted::Says("Usage: mvd loop ")),
    (
        "mvd sync --db f --site 01 --port 1",
        Wanted::Says("Usage: mvd sync "),
    ),
    ("mvd shell", Wanted::Says(SHELL)),
    (
        "mvd shell",
        Wanted::Says("'--db <FILE>' with '--site <N>', or '--port <P>', is missing"),
    ),
    (
        "mvd shell --db f",
        Wanted::Says("the option '--site <N>' is missing"),
    ),
    (
        "mvd shell --db f --port 7",
        Wanted::Says("a shell has '--db <FILE>' with its options, or '--port <P>'"),
    ),
    ("mvd shell --port 7 --address here", Wanted::Says(SHELL)),
];
