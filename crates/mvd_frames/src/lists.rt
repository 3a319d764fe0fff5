//! Digests and the items of lists, read at the front of a payload.
ghost use Rattle.std.specs.Prelude.{◌≡◌, ◌<◌, ◌+◌, length, take};
ghost use Rattle.mvd_wire.specs.Codec.{Gives, Codec, each};
ghost use Rattle.mvd_wire.specs.Rows.{children, digest, digests_codec, item_of, key_count, key_entry, view_row};

use crate::rows::{row_at, term_at};
use mvd_docs::Term;
use mvd_dots::Refusal;
use mvd_keys::Key;
use mvd_wire::{Digests, byte_at, key_at, u32_at};
use std::alloc::Global;

#[tactic(auto, unfolding(mvd_wire::specs::Rows::digest, mvd_wire::specs::Codec::raw))]
fn digest_at(bytes: &[u8]) -> Result<([u8; 32], &[u8]), Refusal>
    ensures { Gives (λ x. (x.0, x.1.now)) result (digest.read bytes.now) }
{
    if bytes.len() < 32 {
        return Err(Refusal::BadBody);
    }
    let (front, rest) = bytes.split_at(32);
    let mut digest = [0u8; 32];
    digest.copy_from_slice(front);
    Ok((digest, rest))
}

/// Sixteen digests, one after the other.
fn sixteen_digests_at(bytes: &[u8]) -> Result<([[u8; 32]; 16], &[u8]), Refusal>
    ensures { Gives (λ x. (x.0, x.1.now)) result ((each (item_of digest) (λ s _. s) tt 16).read bytes.now) }
{
    let mut digests = [[0u8; 32]; 16];
    let mut rest = bytes;
    for i in 0..16 {
        let (digest, after) = digest_at(rest)?;
        digests[i] = digest;
        rest = after;
    }
    Ok((digests, rest))
}

/// No digest, or sixteen.
#[tactic(auto, unfolding(mvd_wire::specs::Rows::children))]
fn children_at(bytes: &[u8]) -> Result<(Option<[[u8; 32]; 16]>, &[u8]), Refusal>
    ensures { Gives (λ x. (x.0, x.1.now)) result (children.read bytes.now) }
{
    let (count, rest) = byte_at(bytes)?;
    match count {
        0 => Ok((None, rest)),
        16 => {
            let (digests, rest) = sixteen_digests_at(rest)?;
            Ok((Some(digests), rest))
        }
        _ => Err(Refusal::BadBody),
    }
}

#[tactic(auto, unfolding(mvd_wire::specs::Rows::digests_codec))]
pub fn digests_at(bytes: &[u8]) -> Result<(Digests, &[u8]), Refusal>
    ensures { Gives (λ x. (x.0, x.1.now)) result (digests_codec.read bytes.now) }
{
    let (own, rest) = digest_at(bytes)?;
    let (children, rest) = children_at(rest)?;
    Ok((Digests { own, children }, rest))
}

#[tactic(auto, unfolding(mvd_wire::specs::Rows::view_row))]
pub fn view_row_at(
    alloc: Global,
    bytes: &[u8],
) -> Result<((Term, u64, i128, Option<(i64, i64)>), &[u8]), Refusal>
    ensures { Gives (λ x. (x.0, x.1.now)) result (view_row.read bytes.now) }
{
    let (term, rest) = term_at(alloc, bytes)?;
    let (row, rest) = row_at(rest)?;
    Ok(((term, row.count, row.sum, row.ends), rest))
}

#[tactic(auto, unfolding(mvd_wire::specs::Rows::key_entry))]
pub fn key_entry_at(alloc: Global, bytes: &[u8]) -> Result<((Key, [u8; 32]), &[u8]), Refusal>
    ensures { Gives (λ x. (x.0, x.1.now)) result (key_entry.read bytes.now) }
{
    let (key, rest) = key_at(alloc, bytes)?;
    let (digest, rest) = digest_at(rest)?;
    Ok(((key, digest), rest))
}

#[tactic(auto, unfolding(mvd_wire::specs::Rows::key_count))]
pub fn key_count_at(alloc: Global, bytes: &[u8]) -> Result<((Key, u32), &[u8]), Refusal>
    ensures { Gives (λ x. (x.0, x.1.now)) result (key_count.read bytes.now) }
{
    let (key, rest) = key_at(alloc, bytes)?;
    let (count, rest) = u32_at(rest)?;
    Ok(((key, count), rest))
}
