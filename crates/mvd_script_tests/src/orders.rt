//! What command lines ask for.
use crate::order_lines::{LINES, NAMES, PEERS, SIXTEEN, Wanted};
use mvd_input::{Named, Order, OrderFault, Peers, Setup, addresses_of, order_of};
use std::alloc::{AllocError, Global};
use std::net::{IpAddr, Ipv4Addr, Ipv6Addr, SocketAddr};
use std::test::Fail;

/// The words of a line, parted by spaces.
fn words_of<'a>(alloc: Global, line: &'a str) -> Result<Vec<&'a str>, AllocError> {
    let mut words = Vec::new(alloc);
    for word in line.split(' ') {
        words.push(word)?;
    }
    Ok(words)
}

fn set_up(site: u32, defs: Option<&str>, max_keys: u32) -> Setup<'_> {
    Setup {
        site,
        defs,
        max_keys,
    }
}

fn address(ip: Ipv4Addr, port: u16) -> SocketAddr {
    SocketAddr::new(IpAddr::V4(ip), port)
}

/// A session of the server at this address with this one.
fn meet_of(
    address: SocketAddr,
    with: SocketAddr,
    idle: u32,
    verbose: bool,
    token_file: Option<&str>,
) -> Order<'_> {
    Order::Meet {
        address,
        with,
        idle,
        verbose,
        token_file,
    }
}

/// No names, and no origins.
const UNNAMED: Named<'static> = Named {
    hosts: None,
    origins: None,
};

/// A server at port 1 with these.
fn serve_of(
    conns: Option<u32>,
    idle: u32,
    http: Option<u16>,
    clients: u32,
    token_file: Option<&str>,
) -> Order<'_> {
    Order::Serve {
        db: "f",
        setup: set_up(1, None, 1_000_000),
        address: address(Ipv4Addr::LOCALHOST, 1),
        conns,
        idle,
        http,
        clients,
        peers: None,
        named: UNNAMED,
        quiet: false,
        token_file,
    }
}

/// A server at port 1 that meets these so often.
fn peers_of<'a>(list: &'a str, every: u32, token_file: Option<&'a str>) -> Order<'a> {
    Order::Serve {
        db: "f",
        setup: set_up(1, None, 1_000_000),
        address: address(Ipv4Addr::LOCALHOST, 1),
        conns: None,
        idle: 300,
        http: None,
        clients: 256,
        peers: Some(Peers { list, every }),
        named: UNNAMED,
        quiet: false,
        token_file,
    }
}

/// A server at port 1 that may be asked by these names, and by pages of these origins.
fn named_of<'a>(hosts: Option<&'a str>, origins: Option<&'a str>, quiet: bool) -> Order<'a> {
    Order::Serve {
        db: "f",
        setup: set_up(1, None, 1_000_000),
        address: address(Ipv4Addr::LOCALHOST, 1),
        conns: None,
        idle: 300,
        http: None,
        clients: 256,
        peers: None,
        named: Named { hosts, origins },
        quiet,
        token_file: None,
    }
}

/// A session with a server with these.
fn sync_of(
    setup: Setup<'static>,
    address: SocketAddr,
    idle: u32,
    verbose: bool,
    token_file: Option<&'static str>,
) -> Order<'static> {
    Order::Sync {
        db: "f",
        setup,
        address,
        idle,
        verbose,
        token_file,
    }
}

/// A shell on a database, and one through the server at port 7.
fn shell_of() -> Order<'static> {
    Order::Shell {
        db: "f",
        setup: set_up(2, None, 9),
    }
}

fn remote_shell_of(token_file: Option<&str>) -> Order<'_> {
    Order::RemoteShell {
        address: address(Ipv4Addr::LOCALHOST, 7),
        idle: 60,
        token_file,
    }
}

/// The order that is asked for, if one is.
fn order_wanted(wanted: Wanted) -> Option<Order<'static>> {
    let here = address(Ipv4Addr::LOCALHOST, 1);
    let there = address(Ipv4Addr::new(10, 0, 0, 1), 65_535);
    let order = match wanted {
        Wanted::Serve => serve_of(Some(1), 1, Some(65_535), 10_000, None),
        Wanted::ServeToken => serve_of(None, 300, None, 256, Some("t")),
        Wanted::Named => named_of(
            Some("db.example"),
            Some("https://a.example,http://b:1"),
            false,
        ),
        Wanted::NamedMost => named_of(Some(NAMES), None, false),
        Wanted::Quiet => named_of(None, None, true),
        Wanted::Peer => peers_of("2", 30, None),
        Wanted::Peers => peers_of("2,10.0.0.1:7007,[::1]:7007", 5, None),
        Wanted::PeersLeast => peers_of("[::1]:65535", 1, None),
        Wanted::PeersMost => peers_of(SIXTEEN, 3_600, Some("t")),
        Wanted::Sync => sync_of(set_up(u32::MAX, Some("d"), 1), there, 86_400, true, None),
        Wanted::SyncToken => sync_of(set_up(1, None, 1_000_000), here, 60, false, Some("t/u")),
        Wanted::Meet => meet_of(here, address(Ipv4Addr::LOCALHOST, 2), 60, false, None),
        Wanted::MeetThere => meet_of(
            address(Ipv4Addr::new(10, 0, 0, 1), 1),
            address(Ipv4Addr::new(10, 0, 0, 1), 2),
            60,
            false,
            None,
        ),
        Wanted::MeetOther => meet_of(
            here,
            SocketAddr::new(IpAddr::V6(Ipv6Addr::LOCALHOST), 65_535),
            1,
            true,
            None,
        ),
        Wanted::MeetToken => {
            meet_of(here, address(Ipv4Addr::LOCALHOST, 2), 60, false, Some("t"))
        }
        Wanted::Loop => Order::Loop(set_up(7, None, 1_000_000)),
        Wanted::Sim => Order::Sim,
        Wanted::Shell => shell_of(),
        Wanted::RemoteShell => remote_shell_of(None),
        Wanted::RemoteShellToken => remote_shell_of(Some("t")),
        Wanted::Range(..) | Wanted::Says(_) => return None,
    };
    Some(order)
}

fn is_wanted(order: Order<'_>, wanted: Wanted) -> bool {
    matches!(order_wanted(wanted), Some(other) if other == order)
}

/// Whether a fault is of the number of this option, or says this.
fn is_told(alloc: Global, fault: &OrderFault, wanted: Wanted) -> Result<bool, AllocError> {
    match fault {
        OrderFault::Range { option, most } => {
            Ok(matches!(wanted, Wanted::Range(word, last) if word == *option && last == *most))
        }
        OrderFault::Words(error) => match wanted {
            Wanted::Says(part) => {
                let text = format!(in alloc; "{error}")?;
                Ok(text.as_str().contains(part))
            }
            _ => Ok(false),
        },
        OrderFault::Stopped(_) => Ok(false),
    }
}

/// Whether that comes of a line.
fn comes_of(alloc: Global, line: &str, wanted: Wanted) -> Result<bool, AllocError> {
    let words = words_of(alloc, line)?;
    match order_of(alloc, &words) {
        Ok(order) => Ok(is_wanted(order, wanted)),
        Err(fault) => is_told(alloc, &fault, wanted),
    }
}

#[test]
fn lines_ask_for_orders(rt: HostRuntime) -> Result<(), Fail> {
    for (line, wanted) in LINES {
        assert!(rt; comes_of(rt.alloc(), line, *wanted)?, "{line}");
    }
    Ok(())
}

#[test]
fn servers_are_told_their_peers(rt: HostRuntime) -> Result<(), Fail> {
    for (words, wanted) in PEERS {
        let line = format!(in rt.alloc(); "mvd serve --db f --site 1 --port 1 {words}")?;
        assert!(rt; comes_of(rt.alloc(), line.as_str(), *wanted)?, "{line}");
    }
    Ok(())
}

/// The last of the addresses of a list at 10.0.0.1, and how many there are.
fn last_of(alloc: Global, list: &str) -> Result<(usize, Option<SocketAddr>), AllocError> {
    let ip = IpAddr::V4(Ipv4Addr::new(10, 0, 0, 1));
    let line = format!(in alloc; "mvd serve --db f --site 1 --port 1 --peer {list}")?;
    let words = words_of(alloc, line.as_str())?;
    match order_of(alloc, &words) {
        Ok(
            Order::Serve {
                peers: Some(peers),
                ..
            },
        ) => {
            let found = addresses_of(alloc, ip, peers.list)?;
            Ok((found.len(), found.last().copied()))
        }
        _ => Ok((0, None)),
    }
}

#[test]
fn lists_have_all_their_addresses(rt: HostRuntime) -> Result<(), Fail> {
    let here = address(Ipv4Addr::new(10, 0, 0, 1), 9);
    let there = address(Ipv4Addr::LOCALHOST, 7);
    let alloc = rt.alloc();
    assert!(rt; last_of(alloc, "9")? == (1, Some(here)));
    assert!(rt; last_of(alloc, "9,127.0.0.1:7")? == (2, Some(there)));
    assert!(rt; last_of(alloc, SIXTEEN)? == (16, Some(here)));
    Ok(())
}
