//! Memory for the response to a write. It is taken before the site is asked, and given back where there is no other: so
//! a write that is stored is told.
use bytes::Bytes;
use http::Request;
use mvd_http::is_write;
use std::alloc::{AllocError, Global};

/// How many bytes are taken for a head, and how many for each byte of what the body may have: a text is copied as it
/// grows.
const HEAD: usize = 4_096;

const TIMES: usize = 16;

/// How many bytes are taken for the lines of a list of writes: each is some three times as long as its write at most,
/// and all are as long as a thousand.
const LINE_TIMES: usize = 4;

const LINES_MAX: usize = 262_144;

/// Memory for the response to a write, if it is one.
pub(crate) fn spare_for(
    alloc: Global,
    request: &Request<Bytes>,
) -> Result<Option<Vec<u8>>, AllocError> {
    let target = match request.uri().path_and_query() {
        Some(target) => target.as_str().as_bytes(),
        None => return Ok(None),
    };
    if !is_write(request.method().as_str().as_bytes(), target) {
        return Ok(None);
    }
    let context = match request.headers().get("mvd-context") {
        Some(context) => context.as_bytes().len(),
        None => 0,
    };
    let lines = request
        .body()
        .len()
        .saturating_mul(LINE_TIMES)
        .min(LINES_MAX);
    let room = context
        .saturating_mul(TIMES)
        .saturating_add(lines)
        .saturating_add(HEAD);
    Ok(Some(Vec::with_capacity(alloc, room)?))
}
