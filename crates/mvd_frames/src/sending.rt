//! Whole frames of requests and replies.
ghost use Rattle.std.specs.Prelude.{◌≡◌, ◌≤◌, ◌<◌, ◌+◌, ◌++◌, [], drop, length, slice_index, true, Ok, IfOk, OnOk};
ghost use Rattle.mvd_keys.specs.Key.{is_key};
ghost use Rattle.mvd_wire.specs.Codec.{Gives, Codec};
ghost use Rattle.mvd_wire.specs.Codecs.{layout2, key, spell_state, state_limit, state_codec as spelled};
ghost use Rattle.mvd_wire.specs.Frames.{frame_limit};
ghost use Rattle.mvd_wire.specs.Requests.{framed, unmeasured, within_limit, put, delete, find_codec, row_of_view_codec};
ghost use Rattle.mvd_wire.specs.Requests.{rows_of_view_codec, push, range, IsRequest, request_bytes, request_frame};
ghost use Rattle.mvd_wire.specs.Replies.{IsReply, reply_frame, within_page};
ghost use Rattle.mvd_wire.specs.Rows.{digests_codec, page, row_codec};
ghost use Rattle.mvd_wire.specs.declared.request.Request.TheVariants as asked;

use crate::row_writing::{
    write_digests, write_field, write_path, write_row, write_term, write_view_name,
};
use crate::sending_keys::{encode_bucket, encode_conflicts, encode_hello, encode_keys};
use crate::short::Short;
use crate::spelled::Spelled;
use crate::spelled_lists::{write_optional, write_page};
use mvd_docs::{Document, Field, Term, ViewName};
use mvd_dots::{Context, Dot, Refusal};
use mvd_keys::{Key, KeyState, Path, Place};
use mvd_wire::{
    Digests, FRAME_LIMIT, PAGE_LIMIT, Reply, Request, RowValue, STATE_LIMIT, state_length,
    write_context, write_document, write_key, write_state,
};
use std::alloc::{AllocError, Global};

/// The head of a frame: a place for its length, and the kind byte.
pub fn head_of(alloc: Global, kind: u8) -> Result<Vec<u8>, AllocError>
    ensures { IfOk result (λ v. v.items ≡ unmeasured kind []) }
{
    head_with_room(alloc, kind, 0)
}

/// The head of a frame, with room for that many bytes of payload.
pub fn head_with_room(alloc: Global, kind: u8, room: usize) -> Result<Vec<u8>, AllocError>
    ensures { IfOk result (λ v. v.items ≡ unmeasured kind []) }
{
    let mut head = Vec::with_capacity(alloc, room.saturating_add(5))?;
    head.extend_from_slice(&[0, 0, 0, 0, kind])?;
    Ok(head)
}

/// The frame with its length, which is set when all of it was written.
pub fn measured(frame: Vec<u8>) -> Result<Vec<u8>, Refusal>
    requires { 5 ≤ length frame.items }
    ensures exact { Gives (λ v. v.items) result (framed (slice_index frame.items 4) (drop 5 frame.items)) }
    ensures bound { IfOk result (λ _. length frame.items ≤ frame_limit + 4) }
{
    let length = frame.len() - 4;
    if length > FRAME_LIMIT {
        return Err(Refusal::FrameTooLong);
    }
    let [a, b, c, d] = (length as u32).to_be_bytes();
    let mut frame = frame;
    frame[0] = a;
    frame[1] = b;
    frame[2] = c;
    frame[3] = d;
    Ok(frame)
}

#[tactic(auto, unfolding(mvd_wire::specs::Requests::put))]
fn write_put(
    out: &mut Vec<u8>,
    key: &Key,
    context: &Context,
    document: &Document,
) -> Result<(), AllocError>
    ensures bytes { OnOk result (out.new.items ≡ out.old.items ++ put.spell (key.now, (context.now, document.now))) }
    ensures fits { OnOk result (length (put.spell (key.now, (context.now, document.now))) < frame_limit →
        put.Fits (key.now, (context.now, document.now))) }
{
    write_key(out, key)?;
    write_context(out, context)?;
    write_document(out, document)?;
    Ok(())
}

#[tactic(auto, unfolding(mvd_wire::specs::Requests::delete))]
fn write_delete(out: &mut Vec<u8>, key: &Key, context: &Context) -> Result<(), AllocError>
    ensures bytes { OnOk result (out.new.items ≡ out.old.items ++ delete.spell (key.now, context.now)) }
    ensures fits { OnOk result (length (delete.spell (key.now, context.now)) < frame_limit →
        delete.Fits (key.now, context.now)) }
{
    write_key(out, key)?;
    write_context(out, context)?;
    Ok(())
}

#[tactic(auto, unfolding(mvd_wire::specs::Requests::push))]
fn write_push(out: &mut Vec<u8>, key: &Key, state: &KeyState) -> Result<(), AllocError>
    ensures bytes { OnOk result (out.new.items ≡ out.old.items ++ push.spell (key.now, state.now)) }
    ensures key { is_key key.now ≡ true }
{
    write_key(out, key)?;
    write_state(out, state)?;
    Ok(())
}

/// The whole frame of a Get, which is never too long.
pub fn encode_get(alloc: Global, key: &Key) -> Result<Vec<u8>, Refusal>
    ensures exact { Gives (λ v. v.items) result (request_frame (asked.Get key.now)) }
    ensures fits { IfOk result (λ _. IsRequest (asked.Get key.now)) }
    ensures short { request_frame (asked.Get key.now) ≡ Ok (request_bytes (asked.Get key.now)) }
{
    let mut frame = head_with_room(alloc, 0x21, key.text().len() + 1)?;
    write_key(&mut frame, key)?;
    measured(frame)
}

/// The whole frame of a Put.
pub fn encode_put(
    alloc: Global,
    key: &Key,
    context: &Context,
    document: &Document,
) -> Result<Vec<u8>, Refusal>
    ensures exact { Gives (λ v. v.items) result (request_frame (asked.Put key.now context.now document.now)) }
    ensures fits { IfOk result (λ _. IsRequest (asked.Put key.now context.now document.now)) }
{
    let mut frame = head_of(alloc, 0x22)?;
    write_put(&mut frame, key, context, document)?;
    measured(frame)
}

/// The whole frame of a Delete.
pub fn encode_delete(alloc: Global, key: &Key, context: &Context) -> Result<Vec<u8>, Refusal>
    ensures exact { Gives (λ v. v.items) result (request_frame (asked.Delete key.now context.now)) }
    ensures fits { IfOk result (λ _. IsRequest (asked.Delete key.now context.now)) }
{
    let mut frame = head_of(alloc, 0x23)?;
    write_delete(&mut frame, key, context)?;
    measured(frame)
}

/// The whole frame of a Push, which is too long only where the state is.
pub fn encode_push(alloc: Global, key: &Key, state: &KeyState) -> Result<Vec<u8>, Refusal>
    ensures exact { Gives (λ v. v.items) result (request_frame (asked.Push key.now state.now)) }
    ensures fits { IfOk result (λ _. IsRequest (asked.Push key.now state.now)) }
    ensures short { length (spell_state state.now) ≤ state_limit →
        request_frame (asked.Push key.now state.now) ≡ Ok (request_bytes (asked.Push key.now state.now)) }
{
    let length = state_length(state);
    if length > STATE_LIMIT {
        return Err(Refusal::StateTooLarge);
    }
    let room = key.text().len() + 1 + length as usize;
    let mut frame = head_with_room(alloc, 0x29, room)?;
    write_push(&mut frame, key, state)?;
    measured(frame)
}

#[tactic(auto, unfolding(mvd_wire::specs::Requests::find_codec))]
fn write_find(
    out: &mut Vec<u8>,
    field: &Field,
    term: &Term,
    after: &Option<(Key, Dot)>,
) -> Result<(), AllocError>
    ensures bytes { OnOk result (out.new.items ≡ out.old.items ++ find_codec.spell (field.now, (term.now, after.now))) }
    ensures fits { OnOk result (find_codec.Fits (field.now, (term.now, after.now))) }
{
    write_field(out, field)?;
    write_term(out, term)?;
    write_optional(out, after)?;
    Ok(())
}

/// The whole frame of a Find.
pub fn encode_find(
    alloc: Global,
    field: &Field,
    term: &Term,
    after: &Option<(Key, Dot)>,
) -> Result<Vec<u8>, Refusal>
    ensures exact { Gives (λ v. v.items) result (request_frame (asked.Find field.now term.now after.now)) }
    ensures fits { IfOk result (λ _. IsRequest (asked.Find field.now term.now after.now)) }
{
    let mut frame = head_of(alloc, 0x24)?;
    write_find(&mut frame, field, term, after)?;
    measured(frame)
}

#[tactic(auto, unfolding(mvd_wire::specs::Requests::row_of_view_codec))]
fn write_row_asked(out: &mut Vec<u8>, name: &ViewName, term: &Term) -> Result<(), AllocError>
    ensures bytes { OnOk result (out.new.items ≡ out.old.items ++ row_of_view_codec.spell (name.now, term.now)) }
    ensures fits { OnOk result (row_of_view_codec.Fits (name.now, term.now)) }
{
    write_view_name(out, name)?;
    write_term(out, term)?;
    Ok(())
}

/// The whole frame of a Row.
pub fn encode_row(alloc: Global, name: &ViewName, term: &Term) -> Result<Vec<u8>, Refusal>
    ensures exact { Gives (λ v. v.items) result (request_frame (asked.Row name.now term.now)) }
    ensures fits { IfOk result (λ _. IsRequest (asked.Row name.now term.now)) }
{
    let mut frame = head_of(alloc, 0x25)?;
    write_row_asked(&mut frame, name, term)?;
    measured(frame)
}

#[tactic(auto, unfolding(mvd_wire::specs::Requests::rows_of_view_codec))]
fn write_rows_asked(
    out: &mut Vec<u8>,
    name: &ViewName,
    after: &Option<Term>,
) -> Result<(), AllocError>
    ensures bytes { OnOk result (out.new.items ≡ out.old.items ++ rows_of_view_codec.spell (name.now, after.now)) }
    ensures fits { OnOk result (rows_of_view_codec.Fits (name.now, after.now)) }
{
    write_view_name(out, name)?;
    write_optional(out, after)?;
    Ok(())
}

/// The whole frame of a Rows.
pub fn encode_rows(alloc: Global, name: &ViewName, after: &Option<Term>) -> Result<Vec<u8>, Refusal>
    ensures exact { Gives (λ v. v.items) result (request_frame (asked.Rows name.now after.now)) }
    ensures fits { IfOk result (λ _. IsRequest (asked.Rows name.now after.now)) }
{
    let mut frame = head_of(alloc, 0x26)?;
    write_rows_asked(&mut frame, name, after)?;
    measured(frame)
}

#[tactic(auto, unfolding(mvd_wire::specs::Requests::range))]
fn write_range(
    out: &mut Vec<u8>,
    field: &Field,
    from: &Term,
    to: &Term,
    after: &Option<Place>,
) -> Result<(), AllocError>
    ensures bytes { OnOk result (out.new.items ≡
        out.old.items ++ range.spell (field.now, (from.now, (to.now, after.now)))) }
    ensures fits { OnOk result (range.Fits (field.now, (from.now, (to.now, after.now)))) }
{
    write_field(out, field)?;
    write_term(out, from)?;
    write_term(out, to)?;
    write_optional(out, after)?;
    Ok(())
}

/// The whole frame of a Range.
pub fn encode_range(
    alloc: Global,
    field: &Field,
    from: &Term,
    to: &Term,
    after: &Option<Place>,
) -> Result<Vec<u8>, Refusal>
    ensures exact { Gives (λ v. v.items) result (request_frame (asked.Range field.now from.now to.now after.now)) }
    ensures fits { IfOk result (λ _. IsRequest (asked.Range field.now from.now to.now after.now)) }
{
    let mut frame = head_of(alloc, 0x2A)?;
    write_range(&mut frame, field, from, to, after)?;
    measured(frame)
}

/// The whole frame of a Node.
pub fn encode_node(alloc: Global, path: &Path) -> Result<Vec<u8>, Refusal>
    ensures exact { Gives (λ v. v.items) result (request_frame (asked.Node path.now)) }
    ensures fits { IfOk result (λ _. IsRequest (asked.Node path.now)) }
{
    let mut frame = head_of(alloc, 0x27)?;
    write_path(&mut frame, path)?;
    measured(frame)
}

/// The whole frame of a Bye.
pub fn encode_bye(alloc: Global) -> Result<Vec<u8>, Refusal>
    ensures { Gives (λ v. v.items) result (Ok (request_bytes asked.Bye)) }
{
    measured(head_of(alloc, 0x2F)?)
}

/// The whole frame of a request.
pub fn encode_request(alloc: Global, request: &Request) -> Result<Vec<u8>, Refusal>
    ensures exact { Gives (λ v. v.items) result (request_frame request.now) }
    // What is encoded is a spelling, which is decoded again.
    ensures fits { IfOk result (λ _. IsRequest request.now) }
{
    match request {
        Request::Get(key) => encode_get(alloc, key),
        Request::Put(key, context, document) => encode_put(alloc, key, context, document),
        Request::Delete(key, context) => encode_delete(alloc, key, context),
        Request::Find(field, term, after) => encode_find(alloc, field, term, after),
        Request::Row(name, term) => encode_row(alloc, name, term),
        Request::Rows(name, after) => encode_rows(alloc, name, after),
        Request::Node(path) => encode_node(alloc, path),
        Request::Bucket(path, after) => encode_bucket(alloc, path, after),
        Request::Range(field, from, to, after) => encode_range(alloc, field, from, to, after),
        Request::Push(key, state) => encode_push(alloc, key, state),
        Request::Keys(prefix, after) => encode_keys(alloc, prefix, after),
        Request::Conflicts(after) => encode_conflicts(alloc, after),
        Request::Hello(token) => encode_hello(alloc, token),
        Request::Bye => encode_bye(alloc),
    }
}

/// The whole frame of a State.
fn encode_state_reply(alloc: Global, state: &KeyState) -> Result<Vec<u8>, Refusal>
    ensures exact { Gives (λ v. v.items) result (within_limit state.now (framed 0xA1 (spell_state state.now))) }
    ensures fits { IfOk result (λ _. (spelled layout2).Fits state.now) }
{
    let length = state_length(state);
    if length > STATE_LIMIT {
        return Err(Refusal::StateTooLarge);
    }
    let mut frame = head_with_room(alloc, 0xA1, length as usize)?;
    write_state(&mut frame, state)?;
    measured(frame)
}

/// The whole frame of a row.
fn encode_row_reply(alloc: Global, value: &RowValue) -> Result<Vec<u8>, Refusal>
    ensures exact { Gives (λ v. v.items) result (framed 0xA5 (row_codec.spell value.now)) }
    ensures fits { IfOk result (λ _. row_codec.Fits value.now) }
{
    let mut frame = head_of(alloc, 0xA5)?;
    write_row(&mut frame, value.count, value.sum, value.ends)?;
    measured(frame)
}

/// The whole frame of digests.
fn encode_digests(alloc: Global, value: &Digests) -> Result<Vec<u8>, Refusal>
    ensures exact { Gives (λ v. v.items) result (framed 0xA7 (digests_codec.spell value.now)) }
    ensures fits { IfOk result (λ _. digests_codec.Fits value.now) }
{
    let mut frame = head_of(alloc, 0xA7)?;
    write_digests(&mut frame, value)?;
    measured(frame)
}

/// The whole frame of a list.
fn encode_page<T: Spelled>(
    alloc: Global,
    kind: u8,
    items: &[T],
    more: bool,
) -> Result<Vec<u8>, Refusal>
    ensures exact { Gives (λ v. v.items) result
        (within_page items.now (framed kind ((page T.kind).spell (items.now, more)))) }
    ensures fits { IfOk result (λ _. (page T.kind).Fits (items.now, more)) }
{
    if items.len() > PAGE_LIMIT {
        return Err(Refusal::BadBody);
    }
    let mut frame = head_of(alloc, kind)?;
    write_page(&mut frame, items, more)?;
    measured(frame)
}

fn encode_short(alloc: Global, short: &Short) -> Result<Vec<u8>, Refusal>
    ensures { Gives (λ v. v.items) result (Ok short.now) }
{
    Ok(Vec::from_slice(alloc, short.bytes())?)
}

/// The whole frame of a reply.
pub fn encode_reply(alloc: Global, reply: &Reply) -> Result<Vec<u8>, Refusal>
    ensures exact { Gives (λ v. v.items) result (reply_frame reply.now) }
    // What is encoded is a spelling, which is decoded again.
    ensures fits { IfOk result (λ _. IsReply reply.now) }
{
    match reply {
        Reply::State(state) => encode_state_reply(alloc, state),
        Reply::Written(dot) => encode_short(alloc, &Short::written(*dot)),
        Reply::Places(places, more) => encode_page(alloc, 0xA4, places.as_slice(), *more),
        Reply::Row(row) => encode_row_reply(alloc, row),
        Reply::Rows(rows, more) => encode_page(alloc, 0xA6, rows.as_slice(), *more),
        Reply::Digests(digests) => encode_digests(alloc, digests),
        Reply::Keys(keys, more) => encode_page(alloc, 0xA8, keys.as_slice(), *more),
        Reply::Counts(counts, more) => encode_page(alloc, 0xA9, counts.as_slice(), *more),
        Reply::Done => encode_short(alloc, &Short::done()),
        Reply::Refused(refusal) => encode_short(alloc, &Short::refused(*refusal)),
    }
}
