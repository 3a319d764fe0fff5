//! Replies, and frames of requests and replies that come back.
use crate::request_frames::{REFUSED_REQUESTS, REQUESTS, is_request, request_fault};
use mvd_docs::Term;
use mvd_dots::{Dot, Refusal};
use mvd_frames::{decode_reply, encode_reply, read_frame};
use mvd_keys::{Key, Place};
use mvd_wire::{Items, Reply};
use std::alloc::Global;
use std::test::Fail;

/// Whether the payload decodes to a reply whose frame is spelled so.
fn is_reply(alloc: Global, kind: u8, payload: &[u8], bytes: &[u8]) -> Result<bool, Refusal> {
    let reply = decode_reply(alloc, kind, payload)?;
    let frame = encode_reply(alloc, &reply);
    drop(reply);
    Ok(frame?.as_slice() == bytes)
}

/// The same of a reply or, where its kind is below those of replies, of a request.
fn is_spelled(alloc: Global, kind: u8, payload: &[u8], bytes: &[u8]) -> Result<bool, Refusal> {
    if kind < 0xA0 {
        is_request(alloc, kind, payload, bytes)
    } else {
        is_reply(alloc, kind, payload, bytes)
    }
}

/// Whether these bytes are a frame, which is spelled so again.
fn comes_back(alloc: Global, bytes: &[u8]) -> Result<bool, Refusal> {
    let mut input = bytes;
    let Some(frame) = read_frame(alloc, &mut input)? else {
        return Ok(false);
    };
    Ok(input.is_empty() && is_spelled(alloc, frame.kind, frame.payload.as_slice(), bytes)?)
}

/// Short replies, empty ones, a row of three siblings, the digest of a bucket, places, and keys with numbers.
const REPLIES: &[&[u8]] = &[
    b"\0\0\0\x0D\xA2\0\0\0\x01\0\0\0\0\0\0\0\x01",
    b"\0\0\0\x01\xA3",
    b"\0\0\0\x02\xEE\x1E",
    b"\0\0\0\x02\xEE\x26",
    b"\0\0\0\x07\xA1\0\0\0\0\0\0",
    b"\0\0\0\x04\xA6\x01\0\0",
    b"\0\0\0\x04\xA8\0\0\0",
    b"\0\0\0\x2A\xA5\0\0\0\0\0\0\0\x03\xFF\xFF\xFF\xFF\xFF\xFF\xFF\xFF\xFF\xFF\xFF\xFF\xFF\xFF\xFF\xFE\x01\xFF\xFF\xFF\xFF\xFF\xFF\xFF\xF9\0\0\0\0\0\0\0\x05",
    b"\0\0\0\x22\xA7\0\0\0\0\0\0\0\0\0\0\0\0\0\0\0\0\0\0\0\0\0\0\0\0\0\0\0\0\0\0\0\0\0",
    b"\0\0\0\x19\xA4\0\0\x01\x04\0\x04Oslo\x01a\0\0\0\x01\0\0\0\0\0\0\0\x01",
    b"\0\0\0\x43\xA4\0\0\x03\x04\0\x04Oslo\x01a\0\0\0\x01\0\0\0\0\0\0\0\x01\
        \x04\0\x04Oslo\x01a\0\0\0\x01\0\0\0\0\0\0\0\x02\x04\0\x04Oslo\x01b\0\0\0\x01\0\0\0\0\0\0\0\x01",
    b"\0\0\0\x04\xA9\0\0\0",
    b"\0\0\0\x0A\xA9\0\0\x01\x01k\0\0\0\x01",
    b"\0\0\0\x10\xA9\x01\0\x02\x01a\0\0\0\x02\x01b\xFF\xFF\xFF\xFF",
];

/// A Hello with a token of 256 bytes, which none is longer than.
fn longest_hello() -> [u8; 263] {
    let mut frame = [0x7A; 263];
    frame[..7].copy_from_slice(b"\0\0\x01\x03\x2D\x01\0");
    frame
}

#[test]
fn frames_come_back(rt: HostRuntime) -> Result<(), Fail> {
    for frames in [REQUESTS, REPLIES] {
        for frame in frames {
            assert!(rt; comes_back(rt.alloc(), frame)?);
        }
    }
    assert!(rt; comes_back(rt.alloc(), &longest_hello())?);
    Ok(())
}

/// The number with which a reply is refused, or 0.
fn fault(alloc: Global, kind: u8, payload: &[u8]) -> u8 {
    match decode_reply(alloc, kind, payload).err() {
        Some(refusal) => refusal.number(),
        None => 0,
    }
}

/// The number with which the reading of a frame is refused, or 0 where there is one, if there is anything; and how many
/// bytes are unread then.
type Came = (Option<u8>, usize);

fn read(alloc: Global, bytes: &[u8]) -> Came {
    let mut input = bytes;
    let number = match read_frame(alloc, &mut input) {
        Ok(None) => None,
        Ok(Some(_)) => Some(0),
        Err(refusal) => Some(refusal.number()),
    };
    (number, input.len())
}

/// The same of these bytes and so many behind them.
fn read_behind(alloc: Global, begin: &[u8], count: usize) -> Result<Came, Refusal> {
    let mut bytes = Vec::new(alloc);
    bytes.extend_from_slice(begin)?;
    for _ in 0..count {
        bytes.push(0x70)?;
    }
    Ok(read(alloc, &bytes))
}

/// How an input begins, how many bytes stand behind that, and what the reading of a frame comes to.
const BEGUN: [(&[u8], usize, Came); 6] = [
    (b"", 0, (None, 0)),
    (b"\0\0", 0, (Some(30), 0)),
    (b"\0\0\0\x03\x21\x01", 0, (Some(30), 0)),
    (b"\0\0\0\0", 0, (Some(31), 0)),
    (b"\0\x12\x4F\x81", 0, (Some(31), 0)),
    (b"\0\x12\x4F\x80", 1_200_007, (Some(0), 7)),
];

fn place(alloc: Global, dot: Dot) -> Result<Place, Refusal> {
    let term = Term::read(alloc, "1")?;
    let key = Key::read(alloc, "k")?;
    Ok(Place { term, key, dot })
}

/// A page of so many places.
fn page(alloc: Global, count: u64) -> Result<Reply, Refusal> {
    let mut places = Vec::new(alloc);
    for counter in 1..=count {
        if let Some(dot) = Dot::new(1, counter) {
            places.push(place(alloc, dot)?)?;
        }
    }
    Ok(Reply::Places(Items::new(places), false))
}

/// The number with which such a page is refused as a frame, or 0.
fn page_fault(alloc: Global, count: u64) -> Result<u8, Refusal> {
    let reply = page(alloc, count)?;
    Ok(match encode_reply(alloc, &reply) {
        Ok(_) => 0,
        Err(refusal) => refusal.number(),
    })
}

/// A kind and a payload that are refused as 33.
const REFUSED: [(u8, &[u8]); 6] = [
    (0xEE, &[18]),
    (0xEE, &[39]),
    (0xA4, &[2, 0, 0]),
    (0xA4, &[0, 3, 0xE9]),
    (0xA9, &[0, 3, 0xE9]),
    (0xA9, &[0, 0, 1, 1, 0x6B, 0, 0, 0]),
];

#[test]
fn other_frames_are_refused(rt: HostRuntime) -> Result<(), Fail> {
    for (kind, payload, number) in REFUSED_REQUESTS {
        assert!(rt; request_fault(rt.alloc(), kind, payload) == number);
    }
    for (kind, payload) in REFUSED {
        assert!(rt; fault(rt.alloc(), kind, payload) == 33);
    }
    for (begin, count, wanted) in BEGUN {
        assert!(rt; read_behind(rt.alloc(), begin, count)? == wanted);
    }
    assert!(rt; page_fault(rt.alloc(), 1_000)? == 0 && page_fault(rt.alloc(), 1_001)? == 33);
    Ok(())
}
