//! Contexts, read at the front of a payload.
ghost use Rattle.std.specs.Prelude.{◌+◌, ◌<◌, ◌^◌, IfOk};
ghost use Rattle.mvd_dots.specs.Entry.{EntryValue, IsEntry};
ghost use Rattle.mvd_dots.specs.Context.{set_of};
ghost use Rattle.mvd_wire.specs.Codec.{Gives, Codec, each, number};
ghost use Rattle.mvd_wire.specs.Codecs.{loose_from, loose_above, entry, entries, context_codec, dots_read, layout_of};

use crate::number_bytes::{u16_at, u32_at, u64_at};
use crate::values::site_at;
use crate::version::Version;
use mvd_dots::{COUNTER_MAX, Context, Entry, Refusal};
use std::alloc::Global;

/// A loose counter, from the least that may come next.
#[tactic(auto, unfolding(crate::specs::Codecs::loose_from))]
fn loose_at(least: u64, bytes: &[u8]) -> Result<(u64, &[u8]), Refusal>
    ensures read { Gives (λ x. (x.0, x.1.now)) result ((loose_from least).read bytes.now) }
    ensures below { IfOk result (λ x. x.0 < 2 ^ 48) }
{
    let (counter, rest) = u64_at(bytes)?;
    if counter < least || counter > COUNTER_MAX {
        return Err(Refusal::BadContext);
    }
    Ok((counter, rest))
}

/// That many loose counters, rising, from the least that may come first.
fn each_loose_at(
    alloc: Global,
    least: u64,
    count: u32,
    bytes: &[u8],
) -> Result<(Vec<u64>, &[u8]), Refusal>
    ensures { Gives (λ x. (x.0.items, x.1.now)) result ((each loose_from (λ _ n. n + 1) least count).read bytes.now) }
{
    let mut loose = Vec::new(alloc);
    let mut least = least;
    let mut rest = bytes;
    for _ in 0..count {
        let (counter, after) = loose_at(least, rest)?;
        loose.push(counter)?;
        least = counter + 1;
        rest = after;
    }
    Ok((loose, rest))
}

#[tactic(auto, unfolding(crate::specs::Codecs::entry, crate::specs::Codecs::loose_above))]
fn parts_of_entry_at(
    alloc: Global,
    version: Version,
    previous: u32,
    bytes: &[u8],
) -> Result<(Entry, &[u8]), Refusal>
    ensures { Gives (λ x. (x.0, x.1.now)) result ((entry (layout_of version) previous).read bytes.now) }
{
    let (site, rest) = site_at(version, bytes)?;
    if site <= previous {
        return Err(Refusal::BadContext);
    }
    let (base, rest) = u64_at(rest)?;
    if base > COUNTER_MAX {
        return Err(Refusal::BadContext);
    }
    let (count, rest) = u32_at(rest)?;
    let (loose, rest) = each_loose_at(alloc, base + 2, count, rest)?;
    if base == 0 && loose.is_empty() {
        return Err(Refusal::BadContext);
    }
    Ok((Entry { site, base, loose }, rest))
}

/// The entry of a site above the one before.
fn entry_at(
    alloc: Global,
    version: Version,
    previous: u32,
    bytes: &[u8],
) -> Result<(Entry, &[u8]), Refusal>
    ensures read { Gives (λ x. (x.0, x.1.now)) result ((entry (layout_of version) previous).read bytes.now) }
    ensures above { IfOk result (λ x. previous < x.0.site) }
    ensures form { IfOk result (λ x. IsEntry x.0) }
{
    parts_of_entry_at(alloc, version, previous, bytes)
}

/// The number of entries, as wide as the version has it.
fn count_at(version: Version, bytes: &[u8]) -> Result<(u32, &[u8]), Refusal>
    ensures { Gives (λ x. (x.0, x.1.now)) result ((number (layout_of version).entries).read bytes.now) }
{
    match version {
        Version::First => {
            let (count, rest) = u16_at(bytes)?;
            Ok((u32::from(count), rest))
        }
        Version::Second => u32_at(bytes),
    }
}

/// The dots of that many entries, by rising site.
fn each_entry_at(
    alloc: Global,
    version: Version,
    count: u32,
    bytes: &[u8],
) -> Result<(Context, &[u8]), Refusal>
    ensures { Gives (λ x. (x.0, x.1.now)) result
        (dots_read ((each (entry (layout_of version)) (λ _ e. e.site) 0 count).read bytes.now)) }
{
    let mut context = Context::new(alloc);
    let mut previous = 0;
    let mut rest = bytes;
    for _ in 0..count {
        let (entry, after) = entry_at(alloc, version, previous, rest)?;
        context.add_entry(entry.site, entry.base, &entry.loose)?;
        previous = entry.site;
        rest = after;
    }
    Ok((context, rest))
}

#[tactic(auto, unfolding(crate::specs::Codecs::context_codec, crate::specs::Codecs::entries))]
pub fn context_at(
    alloc: Global,
    version: Version,
    bytes: &[u8],
) -> Result<(Context, &[u8]), Refusal>
    ensures { Gives (λ x. (x.0, x.1.now)) result ((context_codec (layout_of version)).read bytes.now) }
{
    let (count, rest) = count_at(version, bytes)?;
    each_entry_at(alloc, version, count, rest)
}
