//! The states of keys, read.
ghost use Rattle.std.specs.Prelude.{◌≡◌, ◌≤◌, ◌+◌, length, IfOk, Some, None, Ok};
ghost use Rattle.mvd_dots.specs.Answer.{IsAnswer};
ghost use Rattle.mvd_keys.specs.State.{AreParts, State, pair_of, pairs_of};
ghost use Rattle.mvd_wire.specs.Codec.{Gives, Codec, each, whole, Spells};
ghost use Rattle.mvd_wire.specs.Codecs.{comes_after, sibling, siblings_codec, unlimited_state, state_codec, layout_of};
ghost use Rattle.mvd_wire.specs.Codecs.{layout1, layout2, Layout, spell_state, state_limit};

use crate::context_bytes::context_at;
use crate::limits::{OLD_STATE_LIMIT, STATE_LIMIT};
use crate::number_bytes::u16_at;
use crate::values::{document_at, dot_at};
use crate::version::Version;
use mvd_dots::{Context, Dot, Refusal};
use mvd_keys::{KeyState, Sibling};
use std::alloc::Global;

/// Whether a dot comes after the one before it, if there is one.
fn is_after(previous: Option<Dot>, dot: Dot) -> bool
    ensures { result ≡ comes_after previous dot }
{
    match previous {
        None => true,
        Some(before) => before < dot,
    }
}

#[tactic(auto, unfolding(crate::specs::Codecs::sibling))]
fn sibling_at<'a>(
    alloc: Global,
    version: Version,
    context: &Context,
    previous: Option<Dot>,
    bytes: &'a [u8],
) -> Result<(Sibling, &'a [u8]), Refusal>
    ensures { Gives (λ x. (pair_of x.0, x.1.now)) result
        ((sibling (layout_of version) context.now previous).read bytes.now) }
{
    let (dot, rest) = match dot_at(version, bytes) {
        Ok(found) => found,
        Err(refusal) => return Err(refusal),
    };
    if !is_after(previous, dot) || !context.contains(dot) {
        return Err(Refusal::BadBody);
    }
    let (document, rest) = document_at(alloc, rest)?;
    Ok((Sibling { dot, document }, rest))
}

/// That many siblings, by rising dot, each of a dot of the context.
fn each_sibling_at<'a>(
    alloc: Global,
    version: Version,
    context: &Context,
    count: u16,
    bytes: &'a [u8],
) -> Result<(Vec<Sibling>, &'a [u8]), Refusal>
    ensures { Gives (λ x. (pairs_of x.0.items, x.1.now)) result
        ((each (sibling (layout_of version) context.now) (λ _ s. Some s.0) None count).read bytes.now) }
{
    let mut siblings = Vec::with_capacity(alloc, 1)?;
    let mut previous = None;
    let mut rest = bytes;
    for _ in 0..count {
        let (sibling, after) = sibling_at(alloc, version, context, previous, rest)?;
        previous = Some(sibling.dot);
        siblings.push(sibling)?;
        rest = after;
    }
    Ok((siblings, rest))
}

#[tactic(auto, unfolding(crate::specs::Codecs::siblings_codec))]
fn list_of_siblings_at<'a>(
    alloc: Global,
    version: Version,
    context: &Context,
    bytes: &'a [u8],
) -> Result<(Vec<Sibling>, &'a [u8]), Refusal>
    ensures { Gives (λ x. (pairs_of x.0.items, x.1.now)) result
        ((siblings_codec (layout_of version) context.now).read bytes.now) }
{
    let (count, rest) = u16_at(bytes)?;
    each_sibling_at(alloc, version, context, count, rest)
}

/// The siblings of a state with this context.
fn siblings_at<'a>(
    alloc: Global,
    version: Version,
    context: &Context,
    bytes: &'a [u8],
) -> Result<(Vec<Sibling>, &'a [u8]), Refusal>
    ensures read { Gives (λ x. (pairs_of x.0.items, x.1.now)) result
        ((siblings_codec (layout_of version) context.now).read bytes.now) }
    ensures parts { IfOk result (λ x. AreParts x.0.items context.now) }
{
    list_of_siblings_at(alloc, version, context, bytes)
}

#[tactic(auto, unfolding(crate::specs::Codecs::unlimited_state))]
fn parts_of_state_at(
    alloc: Global,
    version: Version,
    bytes: &[u8],
) -> Result<(KeyState, &[u8]), Refusal>
    ensures { Gives (λ x. (x.0, x.1.now)) result ((unlimited_state (layout_of version)).read bytes.now) }
{
    let (context, rest) = context_at(alloc, version, bytes)?;
    let (siblings, rest) = siblings_at(alloc, version, &context, rest)?;
    Ok((KeyState::of_parts(siblings, context), rest))
}

/// A state of any length.
fn unlimited_state_at(
    alloc: Global,
    version: Version,
    bytes: &[u8],
) -> Result<(KeyState, &[u8]), Refusal>
    ensures read { Gives (λ x. (x.0, x.1.now)) result ((unlimited_state (layout_of version)).read bytes.now) }
    ensures len { IfOk result (λ x. length ((unlimited_state (layout_of version)).spell x.0) + length x.1.now ≡
        length bytes.now) }
{
    parts_of_state_at(alloc, version, bytes)
}

/// The greatest length of a spelled state.
fn limit_of(version: Version) -> u64
    ensures { result ≡ (layout_of version).limit }
{
    match version {
        Version::First => OLD_STATE_LIMIT,
        Version::Second => STATE_LIMIT,
    }
}

#[tactic(auto, unfolding(crate::specs::Codecs::state_codec))]
pub fn state_at(alloc: Global, version: Version, bytes: &[u8]) -> Result<(KeyState, &[u8]), Refusal>
    ensures { Gives (λ x. (x.0, x.1.now)) result ((state_codec (layout_of version)).read bytes.now) }
{
    let (state, rest) = unlimited_state_at(alloc, version, bytes)?;
    if (bytes.len() - rest.len()) as u64 > limit_of(version) {
        return Err(Refusal::StateTooLarge);
    }
    Ok((state, rest))
}

/// The state that all of the bytes spell.
fn decode(alloc: Global, version: Version, bytes: &[u8]) -> Result<KeyState, Refusal>
    ensures { IsAnswer result (whole (state_codec (layout_of version)) bytes.now) }
{
    let (state, rest) = state_at(alloc, version, bytes)?;
    if !rest.is_empty() {
        return Err(Refusal::BadBody);
    }
    Ok(state)
}

/// The state that all of the bytes spell.
pub fn decode_state(alloc: Global, bytes: &[u8]) -> Result<KeyState, Refusal>
    // What is decoded is spelled so.
    ensures found { IfOk result (λ s. Spells (state_codec layout2) s bytes.now) }
    // What is spelled so is decoded, unless memory runs out.
    ensures only { (s : State) → Spells (state_codec layout2) s bytes.now → IsAnswer result (Ok s) }
    // Which refusal it is.
    ensures exact { IsAnswer result (whole (state_codec layout2) bytes.now) }
{
    decode(alloc, Version::Second, bytes)
}

/// The state that all of the bytes spell in the first version of the format.
pub fn decode_old_state(alloc: Global, bytes: &[u8]) -> Result<KeyState, Refusal>
    ensures found { IfOk result (λ s. Spells (state_codec layout1) s bytes.now) }
    ensures only { (s : State) → Spells (state_codec layout1) s bytes.now → IsAnswer result (Ok s) }
    ensures exact { IsAnswer result (whole (state_codec layout1) bytes.now) }
    // What is decoded has a spelling in the second version too, which is not too long.
    ensures spelled { IfOk result (λ s. (state_codec layout2).Fits s) }
    ensures short { IfOk result (λ s. length (spell_state s) ≤ state_limit) }
{
    decode(alloc, Version::First, bytes)
}
