//! Lists of keys in JSON: with the numbers of their siblings, and alone.
ghost use Rattle.std.specs.Prelude.{◌≡◌, ◌++◌, OnOk, IsOkUnless, string_bytes};
ghost use Rattle.std.specs.List.{flat_map};
ghost use Rattle.mvd_http.specs.Json.{commaed, count_mark, counts_text, key_count_text, led, led_if, live_of, live_text};
ghost use Rattle.mvd_http.specs.Json.{next_text_of, next_text, quoted};

use crate::json_lists::push_next;
use crate::json_words::{push_number, push_quoted, push_word};
use mvd_dots::Refusal;
use mvd_keys::Key;
use std::alloc::Global;

/// A key with the number of its siblings.
pub type KeyCount = (Key, u32);

fn push_count(alloc: Global, out: &mut String, entry: &KeyCount) -> Result<(), Refusal>
    ensures text { OnOk result (string_bytes out.new ≡ string_bytes out.old ++ key_count_text entry.now) }
    ensures memory { IsOkUnless result Refusal.Memory }
{
    push_word(out, "{\"key\":")?;
    push_quoted(alloc, out, entry.0.text())?;
    push_word(out, ",\"siblings\":")?;
    push_number(out, u64::from(entry.1))?;
    Ok(push_word(out, "}")?)
}

fn push_more_counts(alloc: Global, out: &mut String, keys: &[KeyCount]) -> Result<(), Refusal>
    ensures text { OnOk result (string_bytes out.new ≡ string_bytes out.old ++ flat_map (led key_count_text) keys.now) }
    ensures memory { IsOkUnless result Refusal.Memory }
{
    for entry in keys {
        push_word(out, ",")?;
        push_count(alloc, out, entry)?;
    }
    Ok(())
}

fn push_counts(alloc: Global, out: &mut String, keys: &[KeyCount]) -> Result<(), Refusal>
    ensures text { OnOk result (string_bytes out.new ≡ string_bytes out.old ++ commaed key_count_text keys.now) }
    ensures memory { IsOkUnless result Refusal.Memory }
{
    let Some((first, rest)) = keys.split_first() else {
        return Ok(());
    };
    push_count(alloc, out, first)?;
    push_more_counts(alloc, out, rest)
}

/// A key behind those that were told, if any.
fn push_next_count(
    alloc: Global,
    out: &mut String,
    entry: &KeyCount,
    is_first: bool,
) -> Result<(), Refusal>
    ensures text { OnOk result
        (string_bytes out.new ≡ string_bytes out.old ++ led_if is_first key_count_text entry.now) }
    ensures memory { IsOkUnless result Refusal.Memory }
{
    if !is_first {
        push_word(out, ",")?;
    }
    push_count(alloc, out, entry)
}

/// Those that have a sibling.
fn push_live(alloc: Global, out: &mut String, keys: &[KeyCount]) -> Result<(), Refusal>
    ensures text { OnOk result (string_bytes out.new ≡
        string_bytes out.old ++ commaed key_count_text (live_of keys.now)) }
    ensures memory { IsOkUnless result Refusal.Memory }
{
    let mut is_first = true;
    for entry in keys {
        if entry.1 > 0 {
            push_next_count(alloc, out, entry, is_first)?;
            is_first = false;
        }
    }
    Ok(())
}

pub fn push_count_next(
    alloc: Global,
    out: &mut String,
    keys: &[KeyCount],
    more: bool,
) -> Result<(), Refusal>
    ensures text { OnOk result (string_bytes out.new ≡
        string_bytes out.old ++ next_text (next_text_of count_mark more keys.now)) }
    ensures memory { IsOkUnless result Refusal.Memory }
{
    if !more {
        return Ok(());
    }
    let Some(last) = keys.last() else {
        return Ok(());
    };
    push_next(alloc, out, last.0.text())
}

/// A page of keys with the numbers of their siblings.
pub fn push_counts_page(
    alloc: Global,
    out: &mut String,
    keys: &[KeyCount],
    more: bool,
) -> Result<(), Refusal>
    ensures text { OnOk result (string_bytes out.new ≡ string_bytes out.old ++ counts_text keys.now more) }
    ensures memory { IsOkUnless result Refusal.Memory }
{
    push_word(out, "{\"keys\":[")?;
    push_counts(alloc, out, keys)?;
    push_word(out, "]")?;
    push_count_next(alloc, out, keys, more)?;
    Ok(push_word(out, "}")?)
}

/// The same without the keys that have no sibling.
pub fn push_live_page(
    alloc: Global,
    out: &mut String,
    keys: &[KeyCount],
    more: bool,
) -> Result<(), Refusal>
    ensures text { OnOk result (string_bytes out.new ≡ string_bytes out.old ++ live_text keys.now more) }
    ensures memory { IsOkUnless result Refusal.Memory }
{
    push_word(out, "{\"keys\":[")?;
    push_live(alloc, out, keys)?;
    push_word(out, "]")?;
    push_count_next(alloc, out, keys, more)?;
    Ok(push_word(out, "}")?)
}

fn push_more_names(alloc: Global, out: &mut String, keys: &[Key]) -> Result<(), Refusal>
    ensures text { OnOk result (string_bytes out.new ≡ string_bytes out.old ++ flat_map (led quoted) keys.now) }
    ensures memory { IsOkUnless result Refusal.Memory }
{
    for key in keys {
        push_word(out, ",")?;
        push_quoted(alloc, out, key.text())?;
    }
    Ok(())
}

/// Keys alone.
pub fn push_key_list(alloc: Global, out: &mut String, keys: &[Key]) -> Result<(), Refusal>
    ensures text { OnOk result (string_bytes out.new ≡ string_bytes out.old ++ commaed quoted keys.now) }
    ensures memory { IsOkUnless result Refusal.Memory }
{
    let Some((first, rest)) = keys.split_first() else {
        return Ok(());
    };
    push_quoted(alloc, out, first.text())?;
    push_more_names(alloc, out, rest)
}
