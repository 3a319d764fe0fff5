//! Calls of a site that no script makes, and the paths of keys.
use crate::asked_over_http::by_city;
use mvd_dots::Refusal;
use mvd_frames::{decode_request, encode_reply};
use mvd_kept::{Kept, Work};
use mvd_keys::Key;
use mvd_rows::Defs;
use mvd_site::{Config, Prepared, Site, no_work};
use mvd_start::Start;
use mvd_tree::key_path;
use mvd_wire::{Reply, Request};
use std::alloc::Global;
use std::test::Fail;

/// A request's kind and payload, and the frame of its reply.
type Asked = (u8, &'static [u8], &'static [u8]);

/// Two puts at `a` by a client that has seen nothing, what is there then, and a goodbye.
const TALK: [Asked; 4] = [
    (
        0x22,
        b"\x01a\0\0\0\0\0\0\0\x07{\"n\":1}",
        b"\0\0\0\x0D\xA2\0\0\0\x03\0\0\0\0\0\0\0\x01",
    ),
    (
        0x22,
        b"\x01a\0\0\0\0\0\0\0\x07{\"n\":2}",
        b"\0\0\0\x0D\xA2\0\0\0\x03\0\0\0\0\0\0\0\x02",
    ),
    (
        0x21,
        b"\x01a",
        b"\0\0\0\x45\xA1\0\0\0\x01\0\0\0\x03\0\0\0\0\0\0\0\x02\0\0\0\0\0\x02\0\0\0\x03\0\0\0\0\0\0\0\x01\0\0\0\x07{\"n\":1}\
        \0\0\0\x03\0\0\0\0\0\0\0\x02\0\0\0\x07{\"n\":2}",
    ),
    (0x2F, b"", b"\0\0\0\x01\xA3"),
];

/// Two puts at two keys, and what is there then.
const APART: [Asked; 4] = [
    (
        0x22,
        b"\x01a\0\0\0\0\0\0\0\x07{\"n\":1}",
        b"\0\0\0\x0D\xA2\0\0\0\x03\0\0\0\0\0\0\0\x01",
    ),
    (
        0x22,
        b"\x01b\0\0\0\0\0\0\0\x02{}",
        b"\0\0\0\x0D\xA2\0\0\0\x03\0\0\0\0\0\0\0\x01",
    ),
    (
        0x21,
        b"\x01a",
        b"\0\0\0\x2E\xA1\0\0\0\x01\0\0\0\x03\0\0\0\0\0\0\0\x01\0\0\0\0\0\x01\0\0\0\x03\0\0\0\0\0\0\0\x01\0\0\0\x07{\"n\":1}",
    ),
    (
        0x21,
        b"\x01b",
        b"\0\0\0\x29\xA1\0\0\0\x01\0\0\0\x03\0\0\0\0\0\0\0\x01\0\0\0\0\0\x01\0\0\0\x03\0\0\0\0\0\0\0\x01\0\0\0\x02{}",
    ),
];

/// The keys of a site that holds none, then one, then one in conflict; and hellos.
const KEYS: [Asked; 12] = [
    (0x2B, b"\0\0", b"\0\0\0\x04\xA9\0\0\0"),
    (0x2C, b"\0", b"\0\0\0\x04\xA9\0\0\0"),
    (
        0x22,
        b"\x01k\0\0\0\0\0\0\0\x07{\"a\":1}",
        b"\0\0\0\x0D\xA2\0\0\0\x03\0\0\0\0\0\0\0\x01",
    ),
    (0x2B, b"\0\0", b"\0\0\0\x0A\xA9\0\0\x01\x01k\0\0\0\x01"),
    (0x2B, b"\x01l\0", b"\0\0\0\x04\xA9\0\0\0"),
    (0x2B, b"\x01k\x01\x01k", b"\0\0\0\x04\xA9\0\0\0"),
    (0x2C, b"\0", b"\0\0\0\x04\xA9\0\0\0"),
    (
        0x22,
        b"\x01k\0\0\0\0\0\0\0\x02{}",
        b"\0\0\0\x0D\xA2\0\0\0\x03\0\0\0\0\0\0\0\x02",
    ),
    (0x2C, b"\x01\x01a", b"\0\0\0\x0A\xA9\0\0\x01\x01k\0\0\0\x02"),
    (0x2C, b"\x01\x01k", b"\0\0\0\x04\xA9\0\0\0"),
    (0x2D, b"\0\0", b"\0\0\0\x01\xA3"),
    (0x2D, b"\0\x02\xFF\0", b"\0\0\0\x01\xA3"),
];

fn requests_of(alloc: Global, asked: &[Asked]) -> Result<Vec<Request>, Refusal> {
    let mut requests = Vec::new(alloc);
    for (kind, payload, _) in asked {
        requests.push(decode_request(alloc, *kind, payload)?)?;
    }
    Ok(requests)
}

fn is_spelled(alloc: Global, reply: &Reply, bytes: &[u8]) -> Result<bool, Refusal> {
    let frame = encode_reply(alloc, reply)?;
    Ok(frame.as_slice() == bytes)
}

/// Whether these are the replies to that.
fn are_told(alloc: Global, replies: &[Reply], asked: &[Asked]) -> Result<bool, Refusal> {
    for (reply, (_, _, frame)) in replies.iter().zip(asked) {
        if !is_spelled(alloc, reply, frame)? {
            return Ok(false);
        }
    }
    Ok(replies.len() == asked.len())
}

fn is_run(alloc: Global, requests: &[Request], asked: &[Asked]) -> Result<bool, Refusal> {
    let config = Config::new(3, 9, Defs::new(alloc));
    let done = Site::run(alloc, &config, requests)?;
    are_told(alloc, &done.1, asked)
}

fn talks(alloc: Global, asked: &[Asked]) -> Result<bool, Refusal> {
    let requests = requests_of(alloc, asked)?;
    is_run(alloc, &requests, asked)
}

/// Whether two requests come to changes of two keys, for which the site has room, and both are then installed.
fn are_installed(site: &mut Site, first: &Request, second: &Request) -> Result<bool, Refusal> {
    let Prepared::Change(first) = site.prepare(first)? else {
        return Ok(false);
    };
    let Prepared::Change(second) = site.prepare(second)? else {
        return Ok(false);
    };
    let held = site.key_count();
    if *first.key() == *second.key() || site.config().max_keys() - held < 2 {
        return Ok(false);
    }
    site.install(first)?;
    site.install(second)?;
    Ok(true)
}

/// What a site answers. Nothing is claimed of it, so that no proof here carries an answer's meaning.
fn answered(site: &mut Site, request: &Request) -> Reply {
    site.answer(request)
}

/// Whether a site answers so.
fn tells(alloc: Global, site: &mut Site, request: &Request, frame: &[u8]) -> Result<bool, Refusal> {
    let reply = answered(site, request);
    is_spelled(alloc, &reply, frame)
}

/// Whether the first two requests are prepared side by side and installed, and the others are then answered so.
fn are_side_by_side(alloc: Global, site: &mut Site, requests: &[Request]) -> Result<bool, Refusal> {
    let [first, second, third, fourth] = requests else {
        return Ok(false);
    };
    Ok(
        are_installed(site, first, second)?
            && tells(alloc, site, third, APART[2].2)?
            && tells(alloc, site, fourth, APART[3].2)?,
    )
}

fn prepares_two(alloc: Global) -> Result<bool, Refusal> {
    let requests = requests_of(alloc, &APART)?;
    let mut site = Site::new(alloc, Config::new(3, 9, Defs::new(alloc)))?;
    are_side_by_side(alloc, &mut site, &requests)
}

#[test]
fn a_site_is_run(rt: HostRuntime) -> Result<(), Fail> {
    assert!(rt; talks(rt.alloc(), &TALK)? && talks(rt.alloc(), &APART)?);
    assert!(rt; talks(rt.alloc(), &KEYS)?);
    assert!(rt; prepares_two(rt.alloc())?);
    Ok(())
}

/// No work yet.
fn nothing() -> Work {
    no_work(&Start::new())
}

/// Whether an answer took so many looks at held states, and so many SHA-256 computations. Nothing is claimed of the
/// answer.
fn answer_takes(kept: &mut Kept, request: &Request, looks: u64, computations: u64) -> bool {
    let mut work = nothing();
    let _reply = kept.answer(request, &mut work);
    work.looks.made(&Start::new()) == looks
        && work.hashed.computations.made(&Start::new()) == computations
}

/// Whether a put takes two looks and six computations.
fn is_counted(alloc: Global, kept: &mut Kept) -> Result<bool, Refusal> {
    let request = decode_request(alloc, TALK[0].0, TALK[0].1)?;
    Ok(answer_takes(kept, &request, 2, 6))
}

fn counts_its_work(alloc: Global) -> Result<bool, Refusal> {
    let config = Config::new(1, 10, Defs::new(alloc));
    let mut kept = Kept::new(alloc, config, &mut nothing())?;
    is_counted(alloc, &mut kept)
}

/// The payloads of three puts of documents with a city, and of one in place of the two at its key.
const CITIES: [&[u8]; 4] = [
    b"\x01a\0\0\0\0\0\0\0\x1A{\"amount\":5,\"city\":\"Oslo\"}",
    b"\x01a\0\0\0\0\0\0\0\x1B{\"amount\":-7,\"city\":\"Oslo\"}",
    b"\x01b\0\0\0\0\0\0\0\x0F{\"city\":\"Oslo\"}",
    b"\x01a\0\0\0\x01\0\0\0\x01\0\0\0\0\0\0\0\x02\0\0\0\0\0\0\0\x0F{\"city\":\"Oslo\"}",
];

/// How many updates of rows a put takes. Nothing is claimed of the answer.
fn updates_of(kept: &mut Kept, request: &Request) -> u64 {
    let mut work = nothing();
    let _reply = kept.answer(request, &mut work);
    work.rows.updates.made(&Start::new())
}

/// The same of the last of these puts.
fn updates_of_last(alloc: Global, kept: &mut Kept) -> Result<u64, Refusal> {
    let mut updates = 0;
    for payload in CITIES {
        let request = decode_request(alloc, 0x22, payload)?;
        updates = updates_of(kept, &request);
    }
    Ok(updates)
}

fn updates(alloc: Global) -> Result<u64, Refusal> {
    let config = Config::new(1, 10, by_city(alloc)?);
    let mut kept = Kept::new(alloc, config, &mut nothing())?;
    updates_of_last(alloc, &mut kept)
}

#[test]
fn an_answer_counts_its_work(rt: HostRuntime) -> Result<(), Fail> {
    assert!(rt; counts_its_work(rt.alloc())?);
    let updates = updates(rt.alloc())?;
    assert!(rt; 0 < updates && updates <= 9, "{updates}");
    Ok(())
}

/// Whether the key has this place.
fn stands_at(alloc: Global, name: &str, digits: &[u8]) -> Result<bool, Refusal> {
    let key = Key::read(alloc, name)?;
    let path = key_path(alloc, &key, &mut nothing().hashed)?;
    Ok(path.digits() == digits)
}

const PATHS: [(&str, [u8; 3]); 3] = [("a", [12, 10, 9]), ("b", [3, 14, 2]), ("abc", [11, 10, 7])];

#[test]
fn keys_have_their_paths(rt: HostRuntime) -> Result<(), Fail> {
    for (name, digits) in PATHS {
        assert!(rt; stands_at(rt.alloc(), name, &digits)?);
    }
    Ok(())
}
