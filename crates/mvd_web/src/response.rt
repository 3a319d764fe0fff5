//! The bytes of a response.
ghost use Rattle.std.specs.Prelude.{◌≡◌, ◌++◌, OnOk, OnErr, IfOk};
ghost use Rattle.http1.specs.Head.{header_parts, pairs, response_text};
ghost use Rattle.http1_typed.specs.Parts.{reason_of};
ghost use Rattle.http_server.specs.Response.{fields as pairs_of, fields_of};
ghost use Rattle.mvd_web.specs.Response.{framing_fields, framing_of, persistence as persistence_told, response_bytes, shares};
ghost use Rattle.mvd_web.specs.Response.{allowing, body_sent, shares_with, varying};

use bytes::BytesMut;
use http::{HeaderName, HeaderValue, StatusCode};
use http_server::Response;
use http1::Header;
use http1::head::write_response;
use mvd_http::{Answer, fill};
use std::alloc::{AllocError, Global};

/// How a response is sent.
#[derive(Clone, Copy)]
pub struct Manner {
    /// No response follows on the connection.
    pub is_last: bool,
    /// The body is left out.
    pub is_head: bool,
}

/// The field that says whether another response may follow.
fn persistence(is_last: bool) -> Header<'static>
    ensures { header_parts result ≡ persistence_told is_last }
{
    Header {
        name: b"connection",
        value: if is_last { b"close" } else { b"keep-alive" },
    }
}

/// The fields of a response as they are written, without those that frame it.
fn own_fields<'a>(
    alloc: Global,
    fields: &'a [(HeaderName, HeaderValue)],
) -> Result<Vec<Header<'a>>, AllocError>
    ensures { IfOk result (λ list. pairs list.items ≡ pairs_of fields.now) }
{
    let mut list = Vec::with_capacity(alloc, fields.len() + 4)?;
    for field in fields {
        list.push(Header {
            name: field.0.as_bytes(),
            value: field.1.as_bytes(),
        })?;
    }
    Ok(list)
}

/// The fields of a response, with those that frame a body of so many bytes. A 204 has no body, and no field for its
/// length.
fn listed<'a>(
    alloc: Global,
    filled: &'a Response,
    digits: &'a [u8],
    is_last: bool,
    origin: &'a [u8],
) -> Result<Vec<Header<'a>>, AllocError>
    ensures { IfOk result (λ list. pairs list.items ≡ (fields_of filled.now ++ shares origin.now)
        ++ framing_fields filled.now.status digits.now is_last) }
{
    let mut list = own_fields(alloc, &filled.headers)?;
    share(&mut list, origin)?;
    list.push(persistence(is_last))?;
    if filled.status.as_u16() == 204 {
        return Ok(list);
    }
    list.push(Header {
        name: b"content-length",
        value: digits,
    })?;
    Ok(list)
}

/// The fields by which a page of another origin may read the response, if one may.
fn share<'a>(list: &mut Vec<Header<'a>>, origin: &'a [u8]) -> Result<(), AllocError>
    ensures { OnOk result (pairs list.new.items ≡ pairs list.old.items ++ shares origin.now) }
{
    if origin.is_empty() {
        return Ok(());
    }
    share_with(list, origin)
}

#[tactic(auto, using(crate::proofs::Listing::two_more))]
fn share_with<'a>(list: &mut Vec<Header<'a>>, origin: &'a [u8]) -> Result<(), AllocError>
    ensures { OnOk result (pairs list.new.items ≡ pairs list.old.items ++ shares_with origin.now) }
{
    list.push(allows(origin))?;
    list.push(varies())?;
    Ok(())
}

/// The field that says which origin's pages may read the response.
fn allows<'a>(origin: &'a [u8]) -> Header<'a>
    ensures { header_parts result ≡ allowing origin.now }
{
    Header {
        name: b"access-control-allow-origin",
        value: origin,
    }
}

/// The field that says that the response is for one origin.
fn varies() -> Header<'static>
    ensures { header_parts result ≡ varying }
{
    Header {
        name: b"vary",
        value: b"Origin",
    }
}

/// Writes a head.
fn put_head(out: &mut BytesMut, status: StatusCode, fields: &[Header<'_>]) -> Result<(), AllocError>
    ensures ok { OnOk result (out.new.items ≡
        out.old.items ++ response_text 1 status (reason_of status) (pairs fields.now)) }
    ensures err { OnErr result (out.new.items ≡ out.old.items) }
{
    let reason = status.canonical_reason().unwrap_or("").as_bytes();
    match write_response(out, 1, status.as_u16(), reason, fields, &[]) {
        Ok(()) => Ok(()),
        Err(_) => Err(AllocError),
    }
}

/// Puts the bytes of a response behind those of `out`: all of them, or none where memory is refused.
pub(crate) fn push_response(
    alloc: Global,
    out: &mut BytesMut,
    answer: Answer,
    body: &str,
    manner: Manner,
    origin: &[u8],
) -> Result<(), AllocError>
    ensures ok { OnOk result (out.new.items ≡
        out.old.items ++ response_bytes answer body.now manner origin.now) }
    ensures err { OnErr result (out.new.items ≡ out.old.items) }
{
    let mut filled = Response::new(alloc);
    fill(&mut filled, answer, "")?;
    let before = out.len();
    push_head(alloc, out, &filled, body.len(), manner.is_last, origin)?;
    match push_body(out, body, manner.is_head || filled.status.as_u16() == 204) {
        Ok(()) => Ok(()),
        Err(error) => {
            out.truncate(before);
            Err(error)
        }
    }
}

/// Puts a body behind what `out` holds, unless it is left out.
fn push_body(out: &mut BytesMut, body: &str, is_left_out: bool) -> Result<(), AllocError>
    ensures ok { OnOk result (out.new.items ≡ out.old.items ++ body_sent is_left_out body.now) }
    ensures err { OnErr result (out.new.items ≡ out.old.items) }
{
    if is_left_out {
        return Ok(());
    }
    out.extend_from_slice(body.as_bytes())
}

/// Puts the head of a response behind what `out` holds. A 204 has no body, and no field for its length.
fn push_head(
    alloc: Global,
    out: &mut BytesMut,
    filled: &Response,
    length: usize,
    is_last: bool,
    origin: &[u8],
) -> Result<(), AllocError>
    ensures ok { OnOk result (out.new.items ≡ out.old.items
        ++ response_text 1 filled.now.status (reason_of filled.now.status)
        ((fields_of filled.now ++ shares origin.now)
        ++ framing_of filled.now.status length is_last)) }
    ensures err { OnErr result (out.new.items ≡ out.old.items) }
{
    let digits = format!(in alloc; "{length}")?;
    let fields = listed(alloc, filled, digits.as_bytes(), is_last, origin)?;
    put_head(out, filled.status, &fields)
}
