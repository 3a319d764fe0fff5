//! Dots, keys, prefixes, tokens and documents, read at the front of a payload.
ghost use Rattle.std.specs.Prelude.{◌≡◌};
ghost use Rattle.mvd_dots.specs.Answer.{IsAnswer};
ghost use Rattle.mvd_keys.specs.Key.{key_of_text};
ghost use Rattle.mvd_wire.specs.Codec.{Gives, Codec, number};
ghost use Rattle.mvd_wire.specs.Codecs.{dot, key, prefix, token, document, document_of_bytes, layout_of};
ghost use Rattle.mvd_wire.specs.Prefix.{prefix_of_text};

use crate::limits::DOCUMENT_LIMIT;
use crate::number_bytes::{byte_at, raw_at, u16_at, u32_at, u64_at};
use crate::prefix::Prefix;
use crate::token::Token;
use crate::version::Version;
use mvd_docs::Document;
use mvd_dots::{COUNTER_MAX, Dot, Refusal};
use mvd_keys::Key;
use std::alloc::Global;

/// A number of a site, as wide as the version has it.
pub fn site_at(version: Version, bytes: &[u8]) -> Result<(u32, &[u8]), Refusal>
    ensures { Gives (λ x. (x.0, x.1.now)) result ((number (layout_of version).site).read bytes.now) }
{
    match version {
        Version::First => {
            let (site, rest) = u16_at(bytes)?;
            Ok((u32::from(site), rest))
        }
        Version::Second => u32_at(bytes),
    }
}

#[tactic(auto, unfolding(crate::specs::Codecs::dot))]
pub fn dot_at(version: Version, bytes: &[u8]) -> Result<(Dot, &[u8]), Refusal>
    ensures { Gives (λ x. (x.0, x.1.now)) result ((dot (layout_of version)).read bytes.now) }
{
    let (site, rest) = site_at(version, bytes)?;
    if site == 0 {
        return Err(Refusal::BadBody);
    }
    let (counter, rest) = u64_at(rest)?;
    if counter == 0 || counter > COUNTER_MAX {
        return Err(Refusal::BadBody);
    }
    match Dot::new(site, counter) {
        Some(dot) => Ok((dot, rest)),
        None => Err(Refusal::BadBody),
    }
}

/// The key whose bytes these are.
fn key_of_bytes(alloc: Global, bytes: &[u8]) -> Result<Key, Refusal>
    ensures { IsAnswer result (key_of_text bytes.now) }
{
    match str::from_utf8(bytes) {
        Ok(text) => Key::read(alloc, text),
        Err(_) => Err(Refusal::BadKey),
    }
}

#[tactic(auto, unfolding(crate::specs::Codecs::key))]
pub fn key_at(alloc: Global, bytes: &[u8]) -> Result<(Key, &[u8]), Refusal>
    ensures { Gives (λ x. (x.0, x.1.now)) result (key.read bytes.now) }
{
    let (count, rest) = byte_at(bytes)?;
    if count == 0 || count > 128 {
        return Err(Refusal::BadKey);
    }
    let (text, rest) = raw_at(usize::from(count), rest)?;
    Ok((key_of_bytes(alloc, text)?, rest))
}

/// The prefix whose bytes these are.
fn prefix_of_bytes(alloc: Global, bytes: &[u8]) -> Result<Prefix, Refusal>
    ensures { IsAnswer result (prefix_of_text bytes.now) }
{
    match str::from_utf8(bytes) {
        Ok(text) => Prefix::read(alloc, text),
        Err(_) => Err(Refusal::BadKey),
    }
}

#[tactic(auto, unfolding(crate::specs::Codecs::prefix))]
pub fn prefix_at(alloc: Global, bytes: &[u8]) -> Result<(Prefix, &[u8]), Refusal>
    ensures { Gives (λ x. (x.0, x.1.now)) result (prefix.read bytes.now) }
{
    let (count, rest) = byte_at(bytes)?;
    if count > 128 {
        return Err(Refusal::BadKey);
    }
    let (text, rest) = raw_at(usize::from(count), rest)?;
    Ok((prefix_of_bytes(alloc, text)?, rest))
}

#[tactic(auto, unfolding(crate::specs::Codecs::token))]
pub fn token_at(alloc: Global, bytes: &[u8]) -> Result<(Token, &[u8]), Refusal>
    ensures { Gives (λ x. (x.0, x.1.now)) result (token.read bytes.now) }
{
    let (count, rest) = u16_at(bytes)?;
    if count > 256 {
        return Err(Refusal::BadBody);
    }
    let (text, rest) = raw_at(usize::from(count), rest)?;
    Ok((Token::read(alloc, text)?, rest))
}

/// The document whose compact text these bytes are.
fn document_of_text(alloc: Global, bytes: &[u8]) -> Result<Document, Refusal>
    ensures { IsAnswer result (document_of_bytes bytes.now) }
{
    match str::from_utf8(bytes) {
        Ok(text) => Document::read_canonical(alloc, text),
        Err(_) => Err(Refusal::BadDocument),
    }
}

#[tactic(auto, unfolding(crate::specs::Codecs::document))]
pub fn document_at(alloc: Global, bytes: &[u8]) -> Result<(Document, &[u8]), Refusal>
    ensures { Gives (λ x. (x.0, x.1.now)) result (document.read bytes.now) }
{
    let (count, rest) = u32_at(bytes)?;
    if count > DOCUMENT_LIMIT {
        return Err(Refusal::DocumentTooLong);
    }
    let (text, rest) = raw_at(count as usize, rest)?;
    Ok((document_of_text(alloc, text)?, rest))
}
