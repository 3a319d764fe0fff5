//! Replies, read.
ghost use Rattle.std.specs.Prelude.{◌≡◌, ℕ, IfOk, Ok};
ghost use Rattle.mvd_dots.specs.Answer.{IsAnswer};
ghost use Rattle.mvd_wire.specs.Codec.{Gives, Codec, whole};
ghost use Rattle.mvd_wire.specs.Codecs.{layout2, dot};
ghost use Rattle.mvd_wire.specs.Rows.{digests_codec, key_count, key_entry, page, place, row_codec, view_row};
ghost use Rattle.mvd_wire.specs.Replies.{SpellsReply, numbered, refusal, reply_of};

use crate::lists::digests_at;
use crate::requests::nothing_of;
use crate::rows::row_at;
use crate::spelled_lists::page_at;
use mvd_docs::Term;
use mvd_dots::{Dot, Refusal};
use mvd_keys::{Key, Place};
use mvd_wire::{Digests, Items, Reply, RowValue, Version, byte_at, decode_state, dot_at};
use std::alloc::Global;

/// The refusal with this number, if there is one.
fn refusal_of(number: u8) -> Option<Refusal>
    ensures { result ≡ numbered number }
{
    Refusal::of_number(number)
}

#[tactic(auto, unfolding(mvd_wire::specs::Replies::refusal))]
fn refused_of(payload: &[u8]) -> Result<Refusal, Refusal>
    ensures { IsAnswer result (whole refusal payload.now) }
{
    let (number, rest) = byte_at(payload)?;
    match refusal_of(number) {
        Some(refusal) => if rest.is_empty() {
            Ok(refusal)
        } else {
            Err(Refusal::BadBody)
        },
        None => Err(Refusal::BadBody),
    }
}

fn written_of(payload: &[u8]) -> Result<Dot, Refusal>
    ensures { IsAnswer result (whole (dot layout2) payload.now) }
{
    match dot_at(Version::Second, payload) {
        Ok((dot, rest)) => if rest.is_empty() {
            Ok(dot)
        } else {
            Err(Refusal::BadBody)
        },
        Err(refusal) => Err(refusal),
    }
}

fn row_of(payload: &[u8]) -> Result<RowValue, Refusal>
    ensures { IsAnswer result (whole row_codec payload.now) }
{
    let (row, rest) = row_at(payload)?;
    if !rest.is_empty() {
        return Err(Refusal::BadBody);
    }
    Ok(row)
}

fn digests_of(payload: &[u8]) -> Result<Digests, Refusal>
    ensures { IsAnswer result (whole digests_codec payload.now) }
{
    let (digests, rest) = digests_at(payload)?;
    if !rest.is_empty() {
        return Err(Refusal::BadBody);
    }
    Ok(digests)
}

fn places_of(alloc: Global, payload: &[u8]) -> Result<(Items<Place>, bool), Refusal>
    ensures { IsAnswer result (whole (page place) payload.now) }
{
    let (items, more, rest) = page_at(alloc, payload)?;
    if !rest.is_empty() {
        return Err(Refusal::BadBody);
    }
    Ok((items, more))
}

fn rows_of(
    alloc: Global,
    payload: &[u8],
) -> Result<(Items<(Term, u64, i128, Option<(i64, i64)>)>, bool), Refusal>
    ensures { IsAnswer result (whole (page view_row) payload.now) }
{
    let (items, more, rest) = page_at(alloc, payload)?;
    if !rest.is_empty() {
        return Err(Refusal::BadBody);
    }
    Ok((items, more))
}

fn keys_of(alloc: Global, payload: &[u8]) -> Result<(Items<(Key, [u8; 32])>, bool), Refusal>
    ensures { IsAnswer result (whole (page key_entry) payload.now) }
{
    let (items, more, rest) = page_at(alloc, payload)?;
    if !rest.is_empty() {
        return Err(Refusal::BadBody);
    }
    Ok((items, more))
}

fn counts_of(alloc: Global, payload: &[u8]) -> Result<(Items<(Key, u32)>, bool), Refusal>
    ensures { IsAnswer result (whole (page key_count) payload.now) }
{
    let (items, more, rest) = page_at(alloc, payload)?;
    if !rest.is_empty() {
        return Err(Refusal::BadBody);
    }
    Ok((items, more))
}

fn reply_at(alloc: Global, kind: u8, payload: &[u8]) -> Result<Reply, Refusal>
    ensures { IsAnswer result (reply_of kind payload.now) }
{
    match kind {
        0xA1 => Ok(Reply::State(decode_state(alloc, payload)?)),
        0xA2 => Ok(Reply::Written(written_of(payload)?)),
        0xA3 => {
            nothing_of(payload)?;
            Ok(Reply::Done)
        }
        0xA4 => {
            let (places, more) = places_of(alloc, payload)?;
            Ok(Reply::Places(places, more))
        }
        0xA5 => Ok(Reply::Row(row_of(payload)?)),
        0xA6 => {
            let (rows, more) = rows_of(alloc, payload)?;
            Ok(Reply::Rows(rows, more))
        }
        0xA7 => Ok(Reply::Digests(digests_of(payload)?)),
        0xA8 => {
            let (keys, more) = keys_of(alloc, payload)?;
            Ok(Reply::Keys(keys, more))
        }
        0xA9 => {
            let (counts, more) = counts_of(alloc, payload)?;
            Ok(Reply::Counts(counts, more))
        }
        0xEE => Ok(Reply::Refused(refused_of(payload)?)),
        _ => Err(Refusal::BadKind),
    }
}

/// The reply that a frame's kind byte and payload spell.
pub fn decode_reply(alloc: Global, kind: u8, payload: &[u8]) -> Result<Reply, Refusal>
    // What is decoded is spelled so.
    ensures found { IfOk result (λ r. SpellsReply r kind payload.now) }
    // What is spelled so is decoded, unless memory runs out.
    ensures only { (r : Reply) → SpellsReply r kind payload.now → IsAnswer result (Ok r) }
    // Which refusal it is.
    ensures exact { IsAnswer result (reply_of kind payload.now) }
{
    reply_at(alloc, kind, payload)
}
