//! Requests.
use mvd_dots::Refusal;
use mvd_frames::{decode_request, encode_request};
use std::alloc::Global;

/// Whether the payload decodes to a request whose frame is spelled so.
pub fn is_request(alloc: Global, kind: u8, payload: &[u8], bytes: &[u8]) -> Result<bool, Refusal> {
    let request = decode_request(alloc, kind, payload)?;
    let frame = encode_request(alloc, &request);
    drop(request);
    Ok(frame?.as_slice() == bytes)
}

/// A get and two writes, a push and the end, finds, questions to views and to the tree, questions for keys, and hellos.
pub const REQUESTS: &[&[u8]] = &[
    b"\0\0\0\x03\x21\x01k",
    b"\0\0\0\x12\x22\x01k\0\0\0\0\0\0\0\x07{\"a\":1}",
    b"\0\0\0\x07\x23\x01k\0\0\0\0",
    b"\0\0\0\x17\x23\x01k\0\0\0\x01\0\0\0\x01\0\0\0\0\0\0\0\x01\0\0\0\0",
    b"\0\0\0\x1F\x23\x01k\0\0\0\x01\0\0\0\x02\0\0\0\0\0\0\0\0\0\0\0\x01\0\0\0\0\0\0\0\x03",
    b"\0\0\0\x30\x29\x01k\0\0\0\x01\0\0\0\x01\0\0\0\0\0\0\0\x01\0\0\0\0\0\x01\0\0\0\x01\0\0\0\0\0\0\0\x01\0\0\0\x07{\"a\":2}",
    b"\0\0\0\x01\x2F",
    b"\0\0\0\x0F\x24\0\x04city\x04\0\x04Oslo\0",
    b"\0\0\0\x14\x24\0\x01n\x02\x01\x01k\0\0\0\x01\0\0\0\0\0\0\0\x02",
    b"\0\0\0\x0F\x2A\0\x01n\x00\x03\0\0\0\0\0\0\0\x0A\x00",
    b"\0\0\0\x0F\x25\0\x05spend\x04\0\x04Oslo",
    b"\0\0\0\x12\x26\0\x05spend\x01\x03\xFF\xFF\xFF\xFF\xFF\xFF\xFF\xFF",
    b"\0\0\0\x02\x27\0",
    b"\0\0\0\x05\x27\x03\0\x0F\x08",
    b"\0\0\0\x06\x28\x01\x02\x01\x01k",
    b"\0\0\0\x03\x2B\0\0",
    b"\0\0\0\x07\x2B\x02!~\x01\x01k",
    b"\0\0\0\x02\x2C\0",
    b"\0\0\0\x04\x2C\x01\x01k",
    b"\0\0\0\x03\x2D\0\0",
    b"\0\0\0\x05\x2D\0\x02\xFF\0",
];

/// A kind and a payload, and the number with which they are refused.
pub const REFUSED_REQUESTS: [(u8, &[u8], u8); 27] = [
    (
        0x22,
        b"\x01k\0\0\0\x01\0\0\0\x01\0\0\0\0\0\0\0\x01\0\0\0\x01\0\0\0\0\0\0\0\x02\0\0\0\x07{\"a\":1}",
        2,
    ),
    (
        0x22,
        b"\x01k\0\0\0\x01\0\0\0\x01\0\0\0\0\0\0\0\0\xFF\xFF\xFF\xFF",
        33,
    ),
    (
        0x22,
        b"\x01k\0\0\0\x01\0\0\0\x01\0\0\0\0\0\0\0\0\0\0\0\0",
        2,
    ),
    (0x29, b"\x01k\0\0\0\0\xFF\xFF", 33),
    // Documents of a push have one form: names rise, and nothing is between.
    (
        0x29,
        b"\x01k\0\0\0\x01\0\0\0\x01\0\0\0\0\0\0\0\x01\0\0\0\0\0\x01\0\0\0\x01\0\0\0\0\0\0\0\x01\0\0\0\x0D{\"b\":1,\"a\":2}",
        7,
    ),
    (
        0x29,
        b"\x01k\0\0\0\x01\0\0\0\x01\0\0\0\0\0\0\0\x01\0\0\0\0\0\x01\0\0\0\x01\0\0\0\0\0\0\0\x01\0\0\0\x08{\"a\":1 }",
        7,
    ),
    (
        0x29,
        b"\x01k\0\0\0\x01\0\0\0\x01\0\0\0\0\0\0\0\x01\0\0\0\0\0\x01\0\0\0\x01\0\0\0\0\0\0\0\x01\0\0\0\x0A{\"a\":1.5 }",
        5,
    ),
    (0x21, b"\0", 1),
    (0x21, b"\x02k", 33),
    (0x01, b"\x01k", 32),
    (0x70, b"", 32),
    (0x2F, b"\0", 33),
    (0x27, b"\x04", 14),
    (0x27, b"\x01\x10", 14),
    (0x24, b"\x00\x02a.\x00\x00", 33),
    (0x25, b"\x00\x01v\x05", 15),
    (0x25, b"\x00\x01v\x04\x02\x01", 15),
    (0x25, b"\x00\x01v\x04\x00\x01\xFF", 15),
    (0x2B, b"\x81", 1),
    (0x2B, b"\x01\x20\0", 1),
    (0x2B, b"\x01\x7F\0", 1),
    (0x2B, b"\x02a", 33),
    (0x2B, b"\0", 33),
    (0x2C, b"\x02", 33),
    (0x2D, b"\0\x01", 33),
    (0x2D, b"\0\0\0", 33),
    // A token of 257 bytes.
    (0x2D, &[1; 259], 33),
];

/// The number with which a request is refused, or 0.
pub fn request_fault(alloc: Global, kind: u8, payload: &[u8]) -> u8 {
    match decode_request(alloc, kind, payload).err() {
        Some(refusal) => refusal.number(),
        None => 0,
    }
}
