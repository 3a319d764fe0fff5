//! Names, terms, places, rows and digests, put at the end of what was written.
ghost use Rattle.std.specs.Prelude.{◌≡◌, ◌++◌, ◌∷◌, [], true, length, OnOk, IfSome};
ghost use Rattle.std.specs.List.{All, flat_map};
ghost use Rattle.mvd_docs.specs.Name.{is_field, is_view_name};
ghost use Rattle.mvd_keys.specs.Path.{is_path};
ghost use Rattle.mvd_wire.specs.Codec.{Codec};
ghost use Rattle.mvd_wire.specs.Codecs.{path};
ghost use Rattle.mvd_wire.specs.Rows.{children, digests_codec, ends, field, key_count, key_entry, place, row_codec};
ghost use Rattle.mvd_wire.specs.Rows.{spot_codec, sum, term, term_text_codec, view_name, view_row, whole_number};

use mvd_docs::{Field, Term, TermText, ViewName};
use mvd_dots::Dot;
use mvd_keys::{Key, Path, Place};
use mvd_wire::{Digests, RowValue, write_dot, write_key, write_len16, write_u32, write_u64};
use std::alloc::AllocError;

#[tactic(auto, unfolding(mvd_wire::specs::Rows::field, mvd_wire::specs::Codec::raw))]
pub fn write_field(out: &mut Vec<u8>, value: &Field) -> Result<(), AllocError>
    ensures bytes { OnOk result (out.new.items ≡ out.old.items ++ field.spell value.now) }
    ensures field { is_field value.now ≡ true }
{
    let text = value.text().as_bytes();
    write_len16(out, text.len())?;
    out.extend_from_slice(text)?;
    Ok(())
}

#[tactic(auto, unfolding(mvd_wire::specs::Rows::view_name, mvd_wire::specs::Codec::raw))]
pub fn write_view_name(out: &mut Vec<u8>, value: &ViewName) -> Result<(), AllocError>
    ensures bytes { OnOk result (out.new.items ≡ out.old.items ++ view_name.spell value.now) }
    ensures name { is_view_name value.now ≡ true }
{
    let text = value.text().as_bytes();
    write_len16(out, text.len())?;
    out.extend_from_slice(text)?;
    Ok(())
}

#[tactic(auto, unfolding(mvd_wire::specs::Codecs::path, mvd_wire::specs::Codec::raw))]
pub fn write_path(out: &mut Vec<u8>, value: &Path) -> Result<(), AllocError>
    ensures bytes { OnOk result (out.new.items ≡ out.old.items ++ path.spell value.now) }
    ensures path { is_path value.now ≡ true }
{
    let digits = value.digits();
    out.push(digits.len() as u8)?;
    out.extend_from_slice(digits)?;
    Ok(())
}

#[tactic(auto, unfolding(mvd_wire::specs::Rows::term_text_codec, mvd_wire::specs::Codec::raw))]
fn write_term_text(out: &mut Vec<u8>, value: &TermText) -> Result<(), AllocError>
    ensures bytes { OnOk result (out.new.items ≡ out.old.items ++ term_text_codec.spell value.now) }
    ensures fits { term_text_codec.Fits value.now }
{
    let text = value.text().as_bytes();
    write_len16(out, text.len())?;
    out.extend_from_slice(text)?;
    Ok(())
}

#[tactic(auto, unfolding(mvd_wire::specs::Rows::whole_number))]
fn write_whole(out: &mut Vec<u8>, value: i64) -> Result<(), AllocError>
    ensures bytes { OnOk result (out.new.items ≡ out.old.items ++ whole_number.spell value) }
    ensures fits { whole_number.Fits value }
{
    write_u64(out, value.cast_unsigned())?;
    Ok(())
}

#[tactic(auto, unfolding(mvd_wire::specs::Rows::term))]
pub fn write_term(out: &mut Vec<u8>, value: &Term) -> Result<(), AllocError>
    ensures bytes { OnOk result (out.new.items ≡ out.old.items ++ term.spell value.now) }
    ensures fits { OnOk result (term.Fits value.now) }
{
    match value {
        Term::Null => out.push(0)?,
        Term::False => out.push(1)?,
        Term::True => out.push(2)?,
        Term::Whole(number) => {
            out.push(3)?;
            write_whole(out, *number)?;
        }
        Term::Text(text) => {
            out.push(4)?;
            write_term_text(out, text)?;
        }
    }
    Ok(())
}

#[tactic(auto, unfolding(mvd_wire::specs::Rows::spot_codec))]
pub fn write_spot(out: &mut Vec<u8>, key: &Key, dot: Dot) -> Result<(), AllocError>
    ensures bytes { OnOk result (out.new.items ≡ out.old.items ++ spot_codec.spell (key.now, dot)) }
    ensures fits { OnOk result (spot_codec.Fits (key.now, dot)) }
{
    write_key(out, key)?;
    write_dot(out, dot)?;
    Ok(())
}

#[tactic(auto, unfolding(mvd_wire::specs::Rows::place))]
pub fn write_place(out: &mut Vec<u8>, value: &Place) -> Result<(), AllocError>
    ensures bytes { OnOk result (out.new.items ≡ out.old.items ++ place.spell value.now) }
    ensures fits { OnOk result (place.Fits value.now) }
{
    write_term(out, &value.term)?;
    write_spot(out, &value.key, value.dot)?;
    Ok(())
}

#[tactic(auto, unfolding(mvd_wire::specs::Rows::ends))]
fn write_ends(out: &mut Vec<u8>, value: Option<(i64, i64)>) -> Result<(), AllocError>
    ensures bytes { OnOk result (out.new.items ≡ out.old.items ++ ends.spell value) }
    ensures fits { OnOk result (ends.Fits value) }
{
    match value {
        None => out.push(0)?,
        Some((least, greatest)) => {
            out.push(1)?;
            write_whole(out, least)?;
            write_whole(out, greatest)?;
        }
    }
    Ok(())
}

/// A signed number of sixteen bytes.
#[tactic(auto, unfolding(mvd_wire::specs::Rows::sum))]
fn write_sum(out: &mut Vec<u8>, value: i128) -> Result<(), AllocError>
    ensures bytes { OnOk result (out.new.items ≡ out.old.items ++ sum.spell value) }
    ensures fits { sum.Fits value }
{
    let bits = value.cast_unsigned();
    write_u64(out, (bits / 18_446_744_073_709_551_616) as u64)?;
    write_u64(out, (bits % 18_446_744_073_709_551_616) as u64)?;
    Ok(())
}

#[tactic(auto, unfolding(mvd_wire::specs::Rows::row_codec))]
pub fn write_row(
    out: &mut Vec<u8>,
    count: u64,
    total: i128,
    limits: Option<(i64, i64)>,
) -> Result<(), AllocError>
    ensures bytes { OnOk result (out.new.items ≡
        out.old.items ++ row_codec.spell (record { count = count; sum = total; ends = limits })) }
    ensures fits { OnOk result (row_codec.Fits (record { count = count; sum = total; ends = limits })) }
{
    write_u64(out, count)?;
    write_sum(out, total)?;
    write_ends(out, limits)?;
    Ok(())
}

#[tactic(auto, unfolding(mvd_wire::specs::Rows::view_row))]
pub fn write_view_row(
    out: &mut Vec<u8>,
    value: &(Term, u64, i128, Option<(i64, i64)>),
) -> Result<(), AllocError>
    ensures bytes { OnOk result (out.new.items ≡ out.old.items ++ view_row.spell value.now) }
    ensures fits { OnOk result (view_row.Fits value.now) }
{
    write_term(out, &value.0)?;
    write_row(out, value.1, value.2, value.3)?;
    Ok(())
}

#[tactic(auto, unfolding(mvd_wire::specs::Rows::key_entry, mvd_wire::specs::Rows::digest, mvd_wire::specs::Codec::raw))]
pub fn write_key_entry(out: &mut Vec<u8>, value: &(Key, [u8; 32])) -> Result<(), AllocError>
    ensures bytes { OnOk result (out.new.items ≡ out.old.items ++ key_entry.spell value.now) }
    ensures fits { OnOk result (key_entry.Fits value.now) }
{
    write_key(out, &value.0)?;
    out.extend_from_slice(&value.1)?;
    Ok(())
}

#[tactic(auto, unfolding(mvd_wire::specs::Rows::key_count))]
pub fn write_key_count(out: &mut Vec<u8>, value: &(Key, u32)) -> Result<(), AllocError>
    ensures bytes { OnOk result (out.new.items ≡ out.old.items ++ key_count.spell value.now) }
    ensures fits { OnOk result (key_count.Fits value.now) }
{
    write_key(out, &value.0)?;
    write_u32(out, value.1)?;
    Ok(())
}

fn write_digest(out: &mut Vec<u8>, digest: &[u8; 32]) -> Result<(), AllocError>
    ensures bytes { OnOk result (out.new.items ≡ out.old.items ++ digest.now) }
    ensures long { length digest.now ≡ 32 }
{
    out.extend_from_slice(digest)
}

fn write_sixteen(out: &mut Vec<u8>, digests: &[[u8; 32]; 16]) -> Result<(), AllocError>
    ensures bytes { OnOk result (out.new.items ≡ out.old.items ++ flat_map (λ d. d) digests.now) }
    ensures sixteen { length digests.now ≡ 16 }
    ensures long { OnOk result (All (λ d. length d ≡ 32) digests.now) }
{
    for digest in digests {
        write_digest(out, digest)?;
    }
    Ok(())
}

/// No digest, or sixteen.
fn write_children(out: &mut Vec<u8>, value: &Option<[[u8; 32]; 16]>) -> Result<(), AllocError>
    ensures bytes { OnOk result (out.new.items ≡ out.old.items ++ children.spell value.now) }
    ensures fits { OnOk result (children.Fits value.now) }
{
    match value {
        None => {
            out.push(0)?;
            Ok(())
        }
        Some(digests) => {
            out.push(16)?;
            write_sixteen(out, digests)?;
            Ok(())
        }
    }
}

#[tactic(auto, unfolding(mvd_wire::specs::Rows::digests_codec, mvd_wire::specs::Rows::digest, mvd_wire::specs::Codec::raw))]
pub fn write_digests(out: &mut Vec<u8>, value: &Digests) -> Result<(), AllocError>
    ensures bytes { OnOk result (out.new.items ≡ out.old.items ++ digests_codec.spell value.now) }
    ensures fits { OnOk result (digests_codec.Fits value.now) }
{
    out.extend_from_slice(&value.own)?;
    write_children(out, &value.children)?;
    Ok(())
}
