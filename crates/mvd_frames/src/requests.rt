//! Requests, read.
ghost use Rattle.std.specs.Prelude.{◌≡◌, ℕ, IfOk, Ok};
ghost use Rattle.mvd_dots.specs.Answer.{IsAnswer};
ghost use Rattle.mvd_wire.specs.Codec.{Gives, Codec, whole, nothing, optional};
ghost use Rattle.mvd_wire.specs.Codecs.{key, path, token};
ghost use Rattle.mvd_wire.specs.Requests.{SpellsRequest, request_of, put, delete, find_codec, row_of_view_codec};
ghost use Rattle.mvd_wire.specs.Requests.{rows_of_view_codec, bucket, push, range, keys_of_prefix};

use crate::rows::{field_at, path_at, term_at, view_name_at};
use crate::spelled_lists::optional_at;
use mvd_docs::{Document, Field, Term, ViewName};
use mvd_dots::{Context, Dot, Refusal};
use mvd_keys::{Key, KeyState, Path, Place};
use mvd_wire::{
    Prefix, Request, Token, Version, context_at, document_at, key_at, prefix_at, state_at, token_at,
};
use std::alloc::Global;

fn get_of(alloc: Global, payload: &[u8]) -> Result<Key, Refusal>
    ensures { IsAnswer result (whole key payload.now) }
{
    let (key, rest) = key_at(alloc, payload)?;
    if !rest.is_empty() {
        return Err(Refusal::BadBody);
    }
    Ok(key)
}

#[tactic(auto, unfolding(mvd_wire::specs::Requests::put))]
fn put_of(alloc: Global, payload: &[u8]) -> Result<(Key, Context, Document), Refusal>
    ensures { Gives (λ p. (p.0, (p.1, p.2))) result (whole put payload.now) }
{
    let (key, rest) = key_at(alloc, payload)?;
    let (context, rest) = context_at(alloc, Version::Second, rest)?;
    let (document, rest) = document_at(alloc, rest)?;
    if !rest.is_empty() {
        return Err(Refusal::BadBody);
    }
    Ok((key, context, document))
}

#[tactic(auto, unfolding(mvd_wire::specs::Requests::delete))]
fn delete_of(alloc: Global, payload: &[u8]) -> Result<(Key, Context), Refusal>
    ensures { IsAnswer result (whole delete payload.now) }
{
    let (key, rest) = key_at(alloc, payload)?;
    let (context, rest) = context_at(alloc, Version::Second, rest)?;
    if !rest.is_empty() {
        return Err(Refusal::BadBody);
    }
    Ok((key, context))
}

#[tactic(auto, unfolding(mvd_wire::specs::Requests::push))]
fn push_of(alloc: Global, payload: &[u8]) -> Result<(Key, KeyState), Refusal>
    ensures { IsAnswer result (whole push payload.now) }
{
    let (key, rest) = key_at(alloc, payload)?;
    let (state, rest) = state_at(alloc, Version::Second, rest)?;
    if !rest.is_empty() {
        return Err(Refusal::BadBody);
    }
    Ok((key, state))
}

#[tactic(auto, unfolding(mvd_wire::specs::Requests::find_codec))]
fn find_of(alloc: Global, payload: &[u8]) -> Result<(Field, Term, Option<(Key, Dot)>), Refusal>
    ensures { Gives (λ p. (p.0, (p.1, p.2))) result (whole find_codec payload.now) }
{
    let (field, rest) = field_at(alloc, payload)?;
    let (term, rest) = term_at(alloc, rest)?;
    let (after, rest) = optional_at(alloc, rest)?;
    if !rest.is_empty() {
        return Err(Refusal::BadBody);
    }
    Ok((field, term, after))
}

#[tactic(auto, unfolding(mvd_wire::specs::Requests::row_of_view_codec))]
fn row_of(alloc: Global, payload: &[u8]) -> Result<(ViewName, Term), Refusal>
    ensures { IsAnswer result (whole row_of_view_codec payload.now) }
{
    let (name, rest) = view_name_at(alloc, payload)?;
    let (term, rest) = term_at(alloc, rest)?;
    if !rest.is_empty() {
        return Err(Refusal::BadBody);
    }
    Ok((name, term))
}

#[tactic(auto, unfolding(mvd_wire::specs::Requests::rows_of_view_codec))]
fn rows_of(alloc: Global, payload: &[u8]) -> Result<(ViewName, Option<Term>), Refusal>
    ensures { IsAnswer result (whole rows_of_view_codec payload.now) }
{
    let (name, rest) = view_name_at(alloc, payload)?;
    let (after, rest) = optional_at(alloc, rest)?;
    if !rest.is_empty() {
        return Err(Refusal::BadBody);
    }
    Ok((name, after))
}

fn node_of(alloc: Global, payload: &[u8]) -> Result<Path, Refusal>
    ensures { IsAnswer result (whole path payload.now) }
{
    let (path, rest) = path_at(alloc, payload)?;
    if !rest.is_empty() {
        return Err(Refusal::BadBody);
    }
    Ok(path)
}

#[tactic(auto, unfolding(mvd_wire::specs::Requests::bucket))]
fn bucket_of(alloc: Global, payload: &[u8]) -> Result<(Path, Option<Key>), Refusal>
    ensures { IsAnswer result (whole bucket payload.now) }
{
    let (path, rest) = path_at(alloc, payload)?;
    let (after, rest) = optional_at(alloc, rest)?;
    if !rest.is_empty() {
        return Err(Refusal::BadBody);
    }
    Ok((path, after))
}

#[tactic(auto, unfolding(mvd_wire::specs::Requests::range))]
fn range_of(alloc: Global, payload: &[u8]) -> Result<(Field, Term, Term, Option<Place>), Refusal>
    ensures { Gives (λ p. (p.0, (p.1, (p.2, p.3)))) result (whole range payload.now) }
{
    let (field, rest) = field_at(alloc, payload)?;
    let (from, rest) = term_at(alloc, rest)?;
    let (to, rest) = term_at(alloc, rest)?;
    let (after, rest) = optional_at(alloc, rest)?;
    if !rest.is_empty() {
        return Err(Refusal::BadBody);
    }
    Ok((field, from, to, after))
}

#[tactic(auto, unfolding(mvd_wire::specs::Requests::keys_of_prefix))]
fn keys_of(alloc: Global, payload: &[u8]) -> Result<(Prefix, Option<Key>), Refusal>
    ensures { IsAnswer result (whole keys_of_prefix payload.now) }
{
    let (prefix, rest) = prefix_at(alloc, payload)?;
    let (after, rest) = optional_at(alloc, rest)?;
    if !rest.is_empty() {
        return Err(Refusal::BadBody);
    }
    Ok((prefix, after))
}

fn conflicts_of(alloc: Global, payload: &[u8]) -> Result<Option<Key>, Refusal>
    ensures { IsAnswer result (whole (optional key) payload.now) }
{
    let (after, rest) = optional_at(alloc, payload)?;
    if !rest.is_empty() {
        return Err(Refusal::BadBody);
    }
    Ok(after)
}

fn hello_of(alloc: Global, payload: &[u8]) -> Result<Token, Refusal>
    ensures { IsAnswer result (whole token payload.now) }
{
    let (token, rest) = token_at(alloc, payload)?;
    if !rest.is_empty() {
        return Err(Refusal::BadBody);
    }
    Ok(token)
}

/// Whether there is no payload.
pub fn nothing_of(payload: &[u8]) -> Result<(), Refusal>
    ensures { result ≡ whole nothing payload.now }
{
    if payload.is_empty() {
        Ok(())
    } else {
        Err(Refusal::BadBody)
    }
}

fn request_at(alloc: Global, kind: u8, payload: &[u8]) -> Result<Request, Refusal>
    ensures exact { IsAnswer result (request_of kind payload.now) }
    ensures bye { kind ≡ 0x2F → result ≡ request_of kind payload.now }
{
    match kind {
        0x21 => Ok(Request::Get(get_of(alloc, payload)?)),
        0x22 => {
            let (key, context, document) = put_of(alloc, payload)?;
            Ok(Request::Put(key, context, document))
        }
        0x23 => {
            let (key, context) = delete_of(alloc, payload)?;
            Ok(Request::Delete(key, context))
        }
        0x24 => {
            let (field, term, after) = find_of(alloc, payload)?;
            Ok(Request::Find(field, term, after))
        }
        0x25 => {
            let (name, term) = row_of(alloc, payload)?;
            Ok(Request::Row(name, term))
        }
        0x26 => {
            let (name, after) = rows_of(alloc, payload)?;
            Ok(Request::Rows(name, after))
        }
        0x27 => Ok(Request::Node(node_of(alloc, payload)?)),
        0x28 => {
            let (path, after) = bucket_of(alloc, payload)?;
            Ok(Request::Bucket(path, after))
        }
        0x2A => {
            let (field, from, to, after) = range_of(alloc, payload)?;
            Ok(Request::Range(field, from, to, after))
        }
        0x29 => {
            let (key, state) = push_of(alloc, payload)?;
            Ok(Request::Push(key, state))
        }
        0x2B => {
            let (prefix, after) = keys_of(alloc, payload)?;
            Ok(Request::Keys(prefix, after))
        }
        0x2C => Ok(Request::Conflicts(conflicts_of(alloc, payload)?)),
        0x2D => Ok(Request::Hello(hello_of(alloc, payload)?)),
        0x2F => {
            nothing_of(payload)?;
            Ok(Request::Bye)
        }
        _ => Err(Refusal::BadKind),
    }
}

/// The request that a frame's kind byte and payload spell.
pub fn decode_request(alloc: Global, kind: u8, payload: &[u8]) -> Result<Request, Refusal>
    // What is decoded is spelled so.
    ensures found { IfOk result (λ r. SpellsRequest r kind payload.now) }
    // What is spelled so is decoded, unless memory runs out.
    ensures only { (r : Request) → SpellsRequest r kind payload.now → IsAnswer result (Ok r) }
    // Which refusal it is.
    ensures exact { IsAnswer result (request_of kind payload.now) }
    // A Bye takes no memory.
    ensures bye { request_of kind payload.now ≡ Ok Request.Bye → result ≡ Ok Request.Bye }
{
    request_at(alloc, kind, payload)
}
