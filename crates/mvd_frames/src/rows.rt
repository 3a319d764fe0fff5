//! Names, terms, places, rows and digests, read at the front of a payload.
ghost use Rattle.std.specs.Prelude.{◌≡◌};
ghost use Rattle.mvd_dots.specs.Answer.{IsAnswer};
ghost use Rattle.mvd_wire.specs.Codec.{Gives, Codec};
ghost use Rattle.mvd_wire.specs.Codecs.{path};
ghost use Rattle.mvd_wire.specs.Rows.{field_of_bytes, field, view_name_of_bytes, view_name, whole_number, text_of_bytes};
ghost use Rattle.mvd_wire.specs.Rows.{term_text_codec, term, term_behind, spot_codec, place, sum, ends, row_codec};

use mvd_docs::{Field, Term, TermText, ViewName};
use mvd_dots::{Dot, Refusal};
use mvd_keys::{Key, Path, Place};
use mvd_wire::{RowValue, Version, byte_at, dot_at, key_at, raw_at, u16_at, u64_at};
use std::alloc::Global;

/// The field whose text these bytes are.
fn field_of_text(alloc: Global, bytes: &[u8]) -> Result<Field, Refusal>
    ensures { IsAnswer result (field_of_bytes bytes.now) }
{
    match str::from_utf8(bytes) {
        Ok(text) => match Field::read(alloc, text) {
            Ok(field) => Ok(field),
            Err(Refusal::Memory) => Err(Refusal::Memory),
            Err(_) => Err(Refusal::BadBody),
        },
        Err(_) => Err(Refusal::BadBody),
    }
}

#[tactic(auto, unfolding(mvd_wire::specs::Rows::field))]
pub fn field_at(alloc: Global, bytes: &[u8]) -> Result<(Field, &[u8]), Refusal>
    ensures { Gives (λ x. (x.0, x.1.now)) result (field.read bytes.now) }
{
    let (count, rest) = u16_at(bytes)?;
    let (text, rest) = raw_at(usize::from(count), rest)?;
    Ok((field_of_text(alloc, text)?, rest))
}

/// The view name whose text these bytes are.
fn view_name_of_text(alloc: Global, bytes: &[u8]) -> Result<ViewName, Refusal>
    ensures { IsAnswer result (view_name_of_bytes bytes.now) }
{
    match str::from_utf8(bytes) {
        Ok(text) => match ViewName::read(alloc, text) {
            Ok(name) => Ok(name),
            Err(Refusal::Memory) => Err(Refusal::Memory),
            Err(_) => Err(Refusal::BadBody),
        },
        Err(_) => Err(Refusal::BadBody),
    }
}

#[tactic(auto, unfolding(mvd_wire::specs::Rows::view_name))]
pub fn view_name_at(alloc: Global, bytes: &[u8]) -> Result<(ViewName, &[u8]), Refusal>
    ensures { Gives (λ x. (x.0, x.1.now)) result (view_name.read bytes.now) }
{
    let (count, rest) = u16_at(bytes)?;
    let (text, rest) = raw_at(usize::from(count), rest)?;
    Ok((view_name_of_text(alloc, text)?, rest))
}

#[tactic(auto, unfolding(mvd_wire::specs::Rows::whole_number))]
fn whole_number_at(bytes: &[u8]) -> Result<(i64, &[u8]), Refusal>
    ensures { Gives (λ x. (x.0, x.1.now)) result (whole_number.read bytes.now) }
{
    let (number, rest) = u64_at(bytes)?;
    Ok((number.cast_signed(), rest))
}

/// The text of a term that these bytes are.
fn text_of(alloc: Global, bytes: &[u8]) -> Result<TermText, Refusal>
    ensures { IsAnswer result (text_of_bytes bytes.now) }
{
    match str::from_utf8(bytes) {
        Ok(text) => TermText::read(alloc, text),
        Err(_) => Err(Refusal::BadTerm),
    }
}

#[tactic(auto, unfolding(mvd_wire::specs::Rows::term_text_codec))]
fn term_text_at(alloc: Global, bytes: &[u8]) -> Result<(TermText, &[u8]), Refusal>
    ensures { Gives (λ x. (x.0, x.1.now)) result (term_text_codec.read bytes.now) }
{
    let (count, rest) = u16_at(bytes)?;
    if count > 512 {
        return Err(Refusal::BadTerm);
    }
    let (text, rest) = raw_at(usize::from(count), rest)?;
    Ok((text_of(alloc, text)?, rest))
}

/// The term behind its tag.
fn term_behind_at(alloc: Global, tag: u8, bytes: &[u8]) -> Result<(Term, &[u8]), Refusal>
    ensures { Gives (λ x. (x.0, x.1.now)) result (term_behind tag bytes.now) }
{
    match tag {
        0 => Ok((Term::Null, bytes)),
        1 => Ok((Term::False, bytes)),
        2 => Ok((Term::True, bytes)),
        3 => {
            let (number, rest) = whole_number_at(bytes)?;
            Ok((Term::Whole(number), rest))
        }
        4 => {
            let (text, rest) = term_text_at(alloc, bytes)?;
            Ok((Term::Text(text), rest))
        }
        _ => Err(Refusal::BadTerm),
    }
}

#[tactic(auto, unfolding(mvd_wire::specs::Rows::term))]
pub fn term_at(alloc: Global, bytes: &[u8]) -> Result<(Term, &[u8]), Refusal>
    ensures { Gives (λ x. (x.0, x.1.now)) result (term.read bytes.now) }
{
    let (tag, rest) = byte_at(bytes)?;
    term_behind_at(alloc, tag, rest)
}

/// The path that these bytes are.
#[tactic(auto, unfolding(mvd_wire::specs::Codecs::path))]
pub fn path_at(alloc: Global, bytes: &[u8]) -> Result<(Path, &[u8]), Refusal>
    ensures { Gives (λ x. (x.0, x.1.now)) result (path.read bytes.now) }
{
    let (count, rest) = byte_at(bytes)?;
    if count > 3 {
        return Err(Refusal::BadPath);
    }
    let (digits, rest) = raw_at(usize::from(count), rest)?;
    Ok((Path::new(alloc, digits)?, rest))
}

/// A key and a dot.
#[tactic(auto, unfolding(mvd_wire::specs::Rows::spot_codec))]
pub fn spot_at(alloc: Global, bytes: &[u8]) -> Result<((Key, Dot), &[u8]), Refusal>
    ensures { Gives (λ x. (x.0, x.1.now)) result (spot_codec.read bytes.now) }
{
    let (key, rest) = key_at(alloc, bytes)?;
    match dot_at(Version::Second, rest) {
        Ok((dot, rest)) => Ok(((key, dot), rest)),
        Err(refusal) => Err(refusal),
    }
}

#[tactic(auto, unfolding(mvd_wire::specs::Rows::place))]
pub fn place_at(alloc: Global, bytes: &[u8]) -> Result<(Place, &[u8]), Refusal>
    ensures { Gives (λ x. (x.0, x.1.now)) result (place.read bytes.now) }
{
    let (term, rest) = term_at(alloc, bytes)?;
    let ((key, dot), rest) = spot_at(alloc, rest)?;
    Ok((Place { term, key, dot }, rest))
}

#[tactic(auto, unfolding(mvd_wire::specs::Rows::ends, mvd_wire::specs::Codec::read_optional))]
fn ends_at(bytes: &[u8]) -> Result<(Option<(i64, i64)>, &[u8]), Refusal>
    ensures { Gives (λ x. (x.0, x.1.now)) result (ends.read bytes.now) }
{
    match bytes {
        [] => Err(Refusal::BadBody),
        [0, rest @ ..] => Ok((None, rest)),
        [1, rest @ ..] => {
            let (least, rest) = whole_number_at(rest)?;
            let (greatest, rest) = whole_number_at(rest)?;
            Ok((Some((least, greatest)), rest))
        }
        [_, ..] => Err(Refusal::BadBody),
    }
}

/// A signed number of sixteen bytes.
#[tactic(auto, unfolding(mvd_wire::specs::Rows::sum))]
fn sum_at(bytes: &[u8]) -> Result<(i128, &[u8]), Refusal>
    ensures { Gives (λ x. (x.0, x.1.now)) result (sum.read bytes.now) }
{
    let (upper, rest) = u64_at(bytes)?;
    let (lower, rest) = u64_at(rest)?;
    let bits = u128::from(upper) * 18_446_744_073_709_551_616 + u128::from(lower);
    Ok((bits.cast_signed(), rest))
}

#[tactic(auto, unfolding(mvd_wire::specs::Rows::row_codec))]
pub fn row_at(bytes: &[u8]) -> Result<(RowValue, &[u8]), Refusal>
    ensures { Gives (λ x. (x.0, x.1.now)) result (row_codec.read bytes.now) }
{
    let (count, rest) = u64_at(bytes)?;
    let (sum, rest) = sum_at(rest)?;
    let (ends, rest) = ends_at(rest)?;
    Ok((RowValue { count, sum, ends }, rest))
}
