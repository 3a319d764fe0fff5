//! States at the limits of their length: 1,150,000 bytes, and 1,000,000 in version 1.
use super::state_frames::comes_back;
use mvd_docs::Document;
use mvd_dots::{Context, Refusal};
use mvd_keys::KeyState;
use mvd_wire::{decode_old_state, decode_state, encode_state};
use std::alloc::Global;
use std::test::Fail;

/// Writes the document {"a":"x..x"} with so many letters, behind its length.
fn put_document(out: &mut Vec<u8>, letters: u32) -> Result<(), Refusal> {
    out.extend_from_slice(&letters.saturating_add(8).to_be_bytes())?;
    out.extend_from_slice(b"{\"a\":\"")?;
    for _ in 0..letters {
        out.push(b'x')?;
    }
    out.extend_from_slice(b"\"}")?;
    Ok(())
}

/// Writes so many siblings of a site, all but the last with the longest document.
fn put_siblings(out: &mut Vec<u8>, site: &[u8], count: u8, last: u32) -> Result<(), Refusal> {
    for counter in 1..=count {
        out.extend_from_slice(site)?;
        out.extend_from_slice(&[0, 0, 0, 0, 0, 0, 0, counter])?;
        put_document(out, if counter < count { 65_528 } else { last })?;
    }
    Ok(())
}

/// Writes a state of 18 siblings, or one of version 1 with 16, whose last document has so many letters.
fn put_state(out: &mut Vec<u8>, is_old: bool, last: u32) -> Result<(), Refusal> {
    if is_old {
        out.extend_from_slice(b"\0\x01\0\x01\0\0\0\0\0\0\0\x10\0\0\0\0\0\x10")?;
        return put_siblings(out, b"\0\x01", 16, last);
    }
    out.extend_from_slice(b"\0\0\0\x01\0\0\0\x01\0\0\0\0\0\0\0\x12\0\0\0\0\0\x12")?;
    put_siblings(out, b"\0\0\0\x01", 18, last)
}

fn long_state(alloc: Global, is_old: bool, last: u32) -> Result<Vec<u8>, Refusal> {
    let mut out = Vec::new(alloc);
    put_state(&mut out, is_old, last)?;
    Ok(out)
}

/// The number with which a state is refused, or 0 where it comes back.
fn fault(alloc: Global, bytes: &[u8]) -> u8 {
    match comes_back(alloc, bytes) {
        Ok(true) => 0,
        Ok(false) => 1,
        Err(refusal) => refusal.number(),
    }
}

/// The number with which a state of version 1 is refused, or 0.
fn old_fault(alloc: Global, bytes: &[u8]) -> u8 {
    match decode_old_state(alloc, bytes) {
        Ok(_) => 0,
        Err(refusal) => refusal.number(),
    }
}

/// Whether a state of so many bytes is refused with this number, or read.
fn is_read(alloc: Global, row: (bool, u32, usize, u8)) -> Result<bool, Refusal> {
    let (is_old, last, length, number) = row;
    let bytes = long_state(alloc, is_old, last)?;
    let fault = if is_old {
        old_fault(alloc, &bytes)
    } else {
        fault(alloc, &bytes)
    };
    Ok(bytes.len() == length && fault == number)
}

/// Whether a state is of version 1, the letters of its last document, its length, and with which number it is refused.
const READ: [(bool, u32, usize, u8); 4] = [
    (false, 35_570, 1_150_000, 0),
    (false, 35_571, 1_150_001, 9),
    (true, 16_710, 1_000_000, 0),
    (true, 16_711, 1_000_001, 9),
];

#[test]
fn states_are_read_to_the_limit(rt: HostRuntime) -> Result<(), Fail> {
    for row in READ {
        assert!(rt; is_read(rt.alloc(), row)?);
    }
    Ok(())
}

/// The number with which the encoding of a state is refused, or 0.
fn spelling_fault(alloc: Global, state: &KeyState) -> u8 {
    match encode_state(alloc, state) {
        Ok(_) => 0,
        Err(refusal) => refusal.number(),
    }
}

/// The same after one put more.
fn fault_after_put(alloc: Global, before: &KeyState, text: &str) -> Result<u8, Refusal> {
    let document = Document::read(alloc, text)?;
    let after = before.put(alloc, 1, &Context::new(alloc), document)?;
    Ok(spelling_fault(alloc, &after.0))
}

/// Whether a put of 25 bytes is written, and one of 26 refused as 9, behind so many bytes less.
fn are_written(alloc: Global, before: &KeyState) -> Result<bool, Refusal> {
    Ok(
        fault_after_put(alloc, before, "{\"a\":\"x\"}")? == 0
            && fault_after_put(alloc, before, "{\"a\":\"xx\"}")? == 9,
    )
}

fn is_written_to_the_limit(alloc: Global) -> Result<bool, Refusal> {
    let bytes = long_state(alloc, false, 35_545)?;
    let before = decode_state(alloc, &bytes)?;
    are_written(alloc, &before)
}

#[test]
fn states_are_written_to_the_limit(rt: HostRuntime) -> Result<(), Fail> {
    assert!(rt; is_written_to_the_limit(rt.alloc())?);
    Ok(())
}
