//! Spelled values, put at the end of what was written.
ghost use Rattle.std.specs.Prelude.{◌≡◌, ◌≤◌, ◌++◌, length, true, OnOk};
ghost use Rattle.std.specs.Int.{w16, w32, w64};
ghost use Rattle.std.specs.List.{flat_map};
ghost use Rattle.mvd_dots.specs.Dot.{IsDot};
ghost use Rattle.mvd_dots.specs.Context.{AreInRange};
ghost use Rattle.mvd_docs.specs.Document.{IsDocument};
ghost use Rattle.mvd_keys.specs.Key.{is_key};
ghost use Rattle.mvd_keys.specs.State.{pair_of, pairs_of};
ghost use Rattle.mvd_wire.specs.Codec.{Codec, number};
ghost use Rattle.mvd_wire.specs.Codecs.{layout2, dot, key, prefix, token, document, context_codec, spell_entry};
ghost use Rattle.mvd_wire.specs.Codecs.{spell_sibling, spell_state};

use crate::prefix::Prefix;
use crate::token::Token;
use mvd_docs::Document;
use mvd_dots::{Context, Dot, Entry};
use mvd_keys::{Key, KeyState, Sibling};
use std::alloc::AllocError;

#[tactic(auto, unfolding(crate::specs::Codec::number))]
pub fn write_u32(out: &mut Vec<u8>, value: u32) -> Result<(), AllocError>
    ensures { OnOk result (out.new.items ≡ out.old.items ++ (number w32).spell value) }
{
    out.extend_from_slice(&value.to_be_bytes())
}

#[tactic(auto, unfolding(crate::specs::Codec::number))]
pub fn write_u64(out: &mut Vec<u8>, value: u64) -> Result<(), AllocError>
    ensures { OnOk result (out.new.items ≡ out.old.items ++ (number w64).spell value) }
{
    out.extend_from_slice(&value.to_be_bytes())
}

/// The low two bytes of a length.
#[tactic(auto, unfolding(crate::specs::Codec::number))]
pub fn write_len16(out: &mut Vec<u8>, len: usize) -> Result<(), AllocError>
    ensures { OnOk result (out.new.items ≡ out.old.items ++ (number w16).spell len) }
{
    out.extend_from_slice(&len.to_be_bytes()[6..])
}

/// The low four bytes of a length.
#[tactic(auto, unfolding(crate::specs::Codec::number))]
pub fn write_len32(out: &mut Vec<u8>, len: usize) -> Result<(), AllocError>
    ensures { OnOk result (out.new.items ≡ out.old.items ++ (number w32).spell len) }
{
    out.extend_from_slice(&len.to_be_bytes()[4..])
}

#[tactic(auto, unfolding(crate::specs::Codecs::dot))]
pub fn write_dot(out: &mut Vec<u8>, value: Dot) -> Result<(), AllocError>
    ensures bytes { OnOk result (out.new.items ≡ out.old.items ++ (dot layout2).spell value) }
    ensures valid { IsDot value }
{
    write_u32(out, value.site())?;
    write_u64(out, value.counter())?;
    Ok(())
}

#[tactic(auto, unfolding(crate::specs::Codecs::key, crate::specs::Codec::raw))]
pub fn write_key(out: &mut Vec<u8>, value: &Key) -> Result<(), AllocError>
    ensures bytes { OnOk result (out.new.items ≡ out.old.items ++ key.spell value.now) }
    ensures key { is_key value.now ≡ true }
    ensures fits { key.Fits value.now }
{
    let text = value.text().as_bytes();
    out.push(text.len() as u8)?;
    out.extend_from_slice(text)?;
    Ok(())
}

#[tactic(auto, unfolding(crate::specs::Codecs::prefix, crate::specs::Codec::raw))]
pub fn write_prefix(out: &mut Vec<u8>, value: &Prefix) -> Result<(), AllocError>
    ensures bytes { OnOk result (out.new.items ≡ out.old.items ++ prefix.spell value.now) }
    ensures fits { prefix.Fits value.now }
{
    let text = value.text().as_bytes();
    out.push(text.len() as u8)?;
    out.extend_from_slice(text)?;
    Ok(())
}

#[tactic(auto, unfolding(crate::specs::Codecs::token, crate::specs::Codec::raw))]
pub fn write_token(out: &mut Vec<u8>, value: &Token) -> Result<(), AllocError>
    ensures bytes { OnOk result (out.new.items ≡ out.old.items ++ token.spell value.now) }
    ensures fits { token.Fits value.now }
{
    let bytes = value.bytes();
    write_len16(out, bytes.len())?;
    out.extend_from_slice(bytes)?;
    Ok(())
}

#[tactic(auto, unfolding(crate::specs::Codecs::document, crate::specs::Codec::raw))]
pub fn write_document(out: &mut Vec<u8>, value: &Document) -> Result<(), AllocError>
    ensures bytes { OnOk result (out.new.items ≡ out.old.items ++ document.spell value.now) }
    ensures document { IsDocument value.now }
    ensures short { length value.now ≤ 65536 }
{
    let text = value.text().as_bytes();
    write_len32(out, text.len())?;
    out.extend_from_slice(text)?;
    Ok(())
}

fn write_loose(out: &mut Vec<u8>, loose: &[u64]) -> Result<(), AllocError>
    ensures { OnOk result (out.new.items ≡ out.old.items ++ flat_map (number w64).spell loose.now) }
{
    for counter in loose {
        write_u64(out, *counter)?;
    }
    Ok(())
}

fn write_entry(out: &mut Vec<u8>, entry: &Entry) -> Result<(), AllocError>
    ensures { OnOk result (out.new.items ≡ out.old.items ++ spell_entry entry.now) }
{
    write_u32(out, entry.site)?;
    write_u64(out, entry.base)?;
    write_len32(out, entry.loose.len())?;
    write_loose(out, &entry.loose)?;
    Ok(())
}

fn write_entries(out: &mut Vec<u8>, entries: &[Entry]) -> Result<(), AllocError>
    ensures { OnOk result (out.new.items ≡ out.old.items ++ flat_map spell_entry entries.now) }
{
    for entry in entries {
        write_entry(out, entry)?;
    }
    Ok(())
}

pub fn write_context(out: &mut Vec<u8>, value: &Context) -> Result<(), AllocError>
    ensures bytes { OnOk result (out.new.items ≡ out.old.items ++ (context_codec layout2).spell value.now) }
    ensures in_range { AreInRange value.now }
{
    let entries = value.entries();
    write_len32(out, entries.len())?;
    write_entries(out, entries)?;
    Ok(())
}

fn write_sibling(out: &mut Vec<u8>, sibling: &Sibling) -> Result<(), AllocError>
    ensures { OnOk result (out.new.items ≡ out.old.items ++ spell_sibling (pair_of sibling.now)) }
{
    write_dot(out, sibling.dot)?;
    write_document(out, &sibling.document)?;
    Ok(())
}

fn write_siblings(out: &mut Vec<u8>, siblings: &[Sibling]) -> Result<(), AllocError>
    ensures { OnOk result (out.new.items ≡ out.old.items ++ flat_map spell_sibling (pairs_of siblings.now)) }
{
    for sibling in siblings {
        write_sibling(out, sibling)?;
    }
    Ok(())
}

pub fn write_state(out: &mut Vec<u8>, state: &KeyState) -> Result<(), AllocError>
    ensures { OnOk result (out.new.items ≡ out.old.items ++ spell_state state.now) }
{
    write_context(out, state.context())?;
    let siblings = state.siblings();
    write_len16(out, siblings.len())?;
    write_siblings(out, siblings)?;
    Ok(())
}
