//! Options and lists of spelled values, read and written.
ghost use Rattle.std.specs.Prelude.{◌≡◌, ◌≤◌, ◌++◌, length, OnOk};
ghost use Rattle.std.specs.Int.{w16};
ghost use Rattle.std.specs.List.{All, flat_map};
ghost use Rattle.mvd_wire.specs.Codec.{Gives, Codec, each, number, optional};
ghost use Rattle.mvd_wire.specs.Rows.{flag, item_count, item_of, items, page, page_limit};

use crate::spelled::Spelled;
use mvd_dots::Refusal;
use mvd_wire::{Items, PAGE_LIMIT, byte_at, u16_at, write_len16};
use std::alloc::{AllocError, Global};

/// 00, or 01 and a value.
#[tactic(auto, unfolding(mvd_wire::specs::Codec::read_optional))]
pub fn optional_at<T: Spelled + Drop>(
    alloc: Global,
    bytes: &[u8],
) -> Result<(Option<T>, &[u8]), Refusal>
    ensures { Gives (λ x. (x.0, x.1.now)) result ((optional T.kind).read bytes.now) }
{
    match bytes {
        [] => Err(Refusal::BadBody),
        [0, rest @ ..] => Ok((None, rest)),
        [1, rest @ ..] => {
            let (value, rest) = T::read_at(alloc, rest)?;
            Ok((Some(value), rest))
        }
        [_, ..] => Err(Refusal::BadBody),
    }
}

pub fn write_optional<T: Spelled>(out: &mut Vec<u8>, value: &Option<T>) -> Result<(), AllocError>
    ensures bytes { OnOk result (out.new.items ≡ out.old.items ++ (optional T.kind).spell value.now) }
    ensures fits { OnOk result ((optional T.kind).Fits value.now) }
{
    match value {
        None => out.push(0)?,
        Some(value) => {
            out.push(1)?;
            value.put(out)?;
        }
    }
    Ok(())
}

fn flag_at(bytes: &[u8]) -> Result<(bool, &[u8]), Refusal>
    ensures { Gives (λ x. (x.0, x.1.now)) result (flag.read bytes.now) }
{
    let (byte, rest) = byte_at(bytes)?;
    if byte > 1 {
        return Err(Refusal::BadBody);
    }
    Ok((byte == 1, rest))
}

/// How many items a list has.
fn count_at(bytes: &[u8]) -> Result<(u16, &[u8]), Refusal>
    ensures { Gives (λ x. (x.0, x.1.now)) result (item_count.read bytes.now) }
{
    let (count, rest) = u16_at(bytes)?;
    if usize::from(count) > PAGE_LIMIT {
        return Err(Refusal::BadBody);
    }
    Ok((count, rest))
}

/// That many values, one after the other.
fn each_at<T: Spelled + Drop>(
    alloc: Global,
    count: u16,
    bytes: &[u8],
) -> Result<(Items<T>, &[u8]), Refusal>
    ensures { Gives (λ x. (x.0, x.1.now)) result ((each (item_of T.kind) (λ s _. s) tt count).read bytes.now) }
{
    let mut items = Vec::new(alloc);
    let mut rest = bytes;
    for _ in 0..count {
        let (item, after) = T::read_at(alloc, rest)?;
        items.push(item)?;
        rest = after;
    }
    Ok((Items::new(items), rest))
}

/// A list, and whether more follow.
#[tactic(auto, unfolding(mvd_wire::specs::Rows::page, mvd_wire::specs::Rows::items))]
pub fn page_at<T: Spelled + Drop>(
    alloc: Global,
    bytes: &[u8],
) -> Result<(Items<T>, bool, &[u8]), Refusal>
    ensures { Gives (λ x. ((x.0, x.1), x.2.now)) result ((page T.kind).read bytes.now) }
{
    let (more, rest) = flag_at(bytes)?;
    let (count, rest) = count_at(rest)?;
    let (items, rest) = each_at(alloc, count, rest)?;
    Ok((items, more, rest))
}

/// Whether more items follow, and how many are here.
fn write_page_head(out: &mut Vec<u8>, more: bool, len: usize) -> Result<(), AllocError>
    ensures { OnOk result (out.new.items ≡ out.old.items ++ (flag.spell more ++ (number w16).spell len)) }
{
    out.push(u8::from(more))?;
    write_len16(out, len)?;
    Ok(())
}

fn write_each<T: Spelled>(out: &mut Vec<u8>, items: &[T]) -> Result<(), AllocError>
    ensures bytes { OnOk result (out.new.items ≡ out.old.items ++ flat_map T.kind.spell items.now) }
    ensures fit { OnOk result (All T.kind.Fits items.now) }
{
    for item in items {
        item.put(out)?;
    }
    Ok(())
}

/// A list, and whether more follow.
pub fn write_page<T: Spelled>(out: &mut Vec<u8>, items: &[T], more: bool) -> Result<(), AllocError>
    ensures bytes { OnOk result (out.new.items ≡ out.old.items ++ (page T.kind).spell (items.now, more)) }
    ensures fits { OnOk result (length items.now ≤ page_limit → (page T.kind).Fits (items.now, more)) }
{
    write_page_head(out, more, items.len())?;
    write_each(out, items)?;
    Ok(())
}
