//! Sessions of two servers, and what is told of them.
ghost use Rattle.std.specs.Prelude.{◌<◌, ◌≤◌};

use mvd_client::{Root, Watched, meet_over, root_over, tell_meeting};
use mvd_docs::Document;
use mvd_dots::{Context, Refusal};
use mvd_hint::Stop;
use mvd_input::Fault;
use mvd_keys::Key;
use mvd_line_tests::Served;
use mvd_remote::Remote;
use mvd_rows::Defs;
use mvd_site::{Config, Site};
use mvd_sync::Report;
use mvd_wire::Request;
use std::alloc::Global;
use std::net::{IpAddr, Ipv4Addr, SocketAddr};
use std::test::Fail;

/// A server of a site of this number, which holds a key.
fn server(alloc: Global, number: u32, max_keys: u32, key: &str) -> Result<Remote<Served>, Refusal>
    requires site { 0 < number }
    requires keys { (0 < max_keys) × (max_keys ≤ 1000000) }
{
    let config = Config::new(number, max_keys, Defs::new(alloc));
    let mut site = Site::new(alloc, config)?;
    let document = Document::read(alloc, "{}")?;
    let put = Request::Put(Key::read(alloc, key)?, Context::new(alloc), document);
    let _reply = site.answer(&put);
    Ok(Remote::over(alloc, Served::new(alloc, site)))
}

fn at(port: u16) -> SocketAddr {
    SocketAddr::new(IpAddr::V4(Ipv4Addr::LOCALHOST), port)
}

/// What is told of a session of two servers: the report, the roots, and what is printed on both outputs.
#[derive(Drop)]
struct Told {
    keys: u64,
    refused: u64,
    is_one: bool,
    out: Vec<u8>,
    errors: Vec<u8>,
    is_left: bool,
}

fn met(alloc: Global, max_keys: u32) -> Result<Told, Refusal>
    requires { (0 < max_keys) × (max_keys ≤ 1000000) }
{
    let mut near = server(alloc, 1, 9, "a")?;
    let mut far = Watched {
        side: server(alloc, 2, max_keys, "b")?,
        moved: 0,
        told: None::<&mut Vec<u8>>,
    };
    let report = match meet_over(alloc, &mut near, &mut far) {
        Ok(report) => report,
        Err(_) => return Err(Refusal::Broken),
    };
    let first = root_over(alloc, &mut near)?;
    let second = root_over(alloc, &mut far.side)?;
    as_told(alloc, &report, first, second)
}

fn as_told(
    alloc: Global,
    report: &Report,
    first: [u8; 32],
    second: [u8; 32],
) -> Result<Told, Refusal> {
    let near = Root {
        address: at(1),
        digest: first,
    };
    let far = Root {
        address: at(2),
        digest: second,
    };
    let mut out = Vec::new(alloc);
    let mut errors = Vec::new(alloc);
    let ended = tell_meeting(alloc, report, near, far, &mut out, &mut errors);
    Ok(Told {
        keys: report.keys,
        refused: report.refused,
        is_one: first == second,
        out,
        errors,
        is_left: is_left(&ended),
    })
}

/// Whether a command is stopped with 10.
fn is_left(ended: &Result<(), Stop<'_>>) -> bool {
    match ended {
        Ok(()) => false,
        Err(stop) => matches!(stop.fault, Fault::Stopped(Refusal::Full)),
    }
}

fn begins(bytes: &[u8], front: &str) -> bool {
    bytes.starts_with(front.as_bytes())
}

/// Two servers that each hold another key: both come to hold both, and are told with one root.
#[test]
fn two_servers_come_to_one_root(rt: HostRuntime) -> Result<(), Fail> {
    match met(rt.alloc(), 9) {
        Ok(told) => {
            assert!(rt;
                (told.keys, told.refused, told.is_one, told.is_left) == (2, 0, true, false)
            );
            assert!(rt; begins(&told.out, "keys 2\nroot 127.0.0.1:1 "));
            assert!(rt; told.out.len() == 7 + 2 * 82 && told.errors.is_empty());
        }
        Err(_) => assert!(rt; false),
    }
    Ok(())
}

/// The second has no room for the first's key, which is named with that server's address.
#[test]
fn a_refused_key_is_told_with_its_server(rt: HostRuntime) -> Result<(), Fail> {
    match met(rt.alloc(), 1) {
        Ok(told) => {
            assert!(rt;
                (told.keys, told.refused, told.is_one, told.is_left) == (1, 1, false, true)
            );
            assert!(rt; begins(&told.out, "keys 1\nrefused 1\nroot 127.0.0.1:1 "));
            assert!(rt;
                told.errors.as_slice() == b"mvd: key a: 10 Full at 127.0.0.1:2\n".as_slice()
            );
        }
        Err(_) => assert!(rt; false),
    }
    Ok(())
}
