//! The responses to who asks for keys that have a sibling, and for documents as their texts.
ghost use Rattle.std.specs.Prelude.{Ok, IfOk, string_bytes};
ghost use Rattle.mvd_http.specs.Answers.{AppendsBody, Responds, is_stored as stored, live_told, ok_told, texts_told};
ghost use Rattle.mvd_http.specs.Json.{live_text};

use crate::count_lists::{KeyCount, push_live_page};
use crate::question::Spelling;
use crate::responses::{key_asked, push_found, refused_response, response_of};
use mvd_dots::Refusal;
use mvd_wire::{Reply, Request};
use std::alloc::{AllocError, Global};

/// Puts the body of a reply in place of what `out` held, without the keys that have no sibling, and gives its status.
pub fn live_response_of(
    alloc: Global,
    request: &Request,
    reply: &Reply,
    out: &mut String,
) -> Result<u16, AllocError>
    ensures { IfOk result (λ status.
        Responds (stored reply.now) (live_told request.now reply.now) status (string_bytes out.new)) }
{
    let Reply::Counts(keys, more) = reply else {
        return response_of(alloc, request, reply, out);
    };
    out.clear();
    match push_live_of(alloc, out, keys.as_slice(), *more) {
        Ok(status) => Ok(status),
        Err(refusal) => refused_response(out, refusal),
    }
}

fn push_live_of(
    alloc: Global,
    out: &mut String,
    keys: &[KeyCount],
    more: bool,
) -> Result<u16, Refusal>
    ensures { AppendsBody (Ok (ok_told (live_text keys.now more))) (string_bytes out.old)
        (string_bytes out.new) result }
{
    push_live_page(alloc, out, keys, more)?;
    Ok(200)
}

/// The same with all keys, where each document is told as its text.
pub fn texts_response_of(
    alloc: Global,
    request: &Request,
    reply: &Reply,
    out: &mut String,
) -> Result<u16, AllocError>
    ensures { IfOk result (λ status.
        Responds (stored reply.now) (texts_told request.now reply.now) status (string_bytes out.new)) }
{
    let Reply::State(state) = reply else {
        return response_of(alloc, request, reply, out);
    };
    out.clear();
    match push_found(alloc, key_asked(request), Spelling::Quoted, state, out) {
        Ok(status) => Ok(status),
        Err(refusal) => refused_response(out, refusal),
    }
}
