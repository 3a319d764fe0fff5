//! Lists in JSON: entries with commas between them, and the text to go on from.
ghost use Rattle.std.specs.Prelude.{◌≡◌, ◌++◌, Some, OnOk, IfOk, IsOkUnless, string_bytes};
ghost use Rattle.std.specs.List.{flat_map};
ghost use Rattle.mvd_http.specs.Json.{commaed, ends_json, key_digest_text, keys_json, led, next_text_of, next_text, key_mark};
ghost use Rattle.mvd_http.specs.Json.{row_mark, place_mark as mark_of_place, place_json, places_json, row_json, rows_text};
ghost use Rattle.mvd_http.specs.Json.{place_front, view_row_json};

use crate::json_words::{
    push_digest, push_dot, push_number, push_quoted, push_signed, push_term, push_whole, push_word,
};
use mvd_docs::Term;
use mvd_dots::Refusal;
use mvd_keys::{Key, Place};
use std::alloc::{AllocError, Global};

/// A row of a view as it is told: its term, its count, its sum, and its ends.
pub type ViewRow = (Term, u64, i128, Option<(i64, i64)>);

/// A key of a bucket with its digest.
pub type KeyDigest = (Key, [u8; 32]);

/// A place, without its end.
pub fn push_place_front(alloc: Global, out: &mut String, place: &Place) -> Result<(), Refusal>
    ensures text { OnOk result (string_bytes out.new ≡ string_bytes out.old ++ place_front place.now) }
    ensures memory { IsOkUnless result Refusal.Memory }
{
    push_word(out, "{\"term\":")?;
    push_term(alloc, out, &place.term)?;
    push_word(out, ",\"key\":")?;
    push_quoted(alloc, out, place.key.text())?;
    push_word(out, ",\"dot\":\"")?;
    push_dot(out, place.dot)?;
    Ok(push_word(out, "\"")?)
}

pub fn push_place(alloc: Global, out: &mut String, place: &Place) -> Result<(), Refusal>
    ensures text { OnOk result (string_bytes out.new ≡ string_bytes out.old ++ place_json place.now) }
    ensures memory { IsOkUnless result Refusal.Memory }
{
    push_place_front(alloc, out, place)?;
    Ok(push_word(out, "}")?)
}

fn push_more_places(alloc: Global, out: &mut String, places: &[Place]) -> Result<(), Refusal>
    ensures text { OnOk result (string_bytes out.new ≡ string_bytes out.old ++ flat_map (led place_json) places.now) }
    ensures memory { IsOkUnless result Refusal.Memory }
{
    for place in places {
        push_word(out, ",")?;
        push_place(alloc, out, place)?;
    }
    Ok(())
}

fn push_places(alloc: Global, out: &mut String, places: &[Place]) -> Result<(), Refusal>
    ensures text { OnOk result (string_bytes out.new ≡ string_bytes out.old ++ commaed place_json places.now) }
    ensures memory { IsOkUnless result Refusal.Memory }
{
    let Some((first, rest)) = places.split_first() else {
        return Ok(());
    };
    push_place(alloc, out, first)?;
    push_more_places(alloc, out, rest)
}

fn push_two(out: &mut String, least: i64, greatest: i64) -> Result<(), AllocError>
    ensures { OnOk result (string_bytes out.new ≡ string_bytes out.old ++ ends_json (Some (least, greatest))) }
{
    push_word(out, ",\"least\":")?;
    push_whole(out, least)?;
    push_word(out, ",\"greatest\":")?;
    push_whole(out, greatest)?;
    Ok(())
}

/// The least and the greatest number, where there are any.
fn push_ends(out: &mut String, ends: Option<(i64, i64)>) -> Result<(), AllocError>
    ensures { OnOk result (string_bytes out.new ≡ string_bytes out.old ++ ends_json ends) }
{
    match ends {
        Some((least, greatest)) => push_two(out, least, greatest),
        None => Ok(()),
    }
}

/// A row, with its term.
pub fn push_row(
    alloc: Global,
    out: &mut String,
    term: &Term,
    count: u64,
    sum: i128,
    ends: Option<(i64, i64)>,
) -> Result<(), Refusal>
    ensures text { OnOk result (string_bytes out.new ≡ string_bytes out.old ++ row_json term.now count sum ends) }
    ensures memory { IsOkUnless result Refusal.Memory }
{
    push_word(out, "{\"term\":")?;
    push_term(alloc, out, term)?;
    push_word(out, ",\"count\":")?;
    push_number(out, count)?;
    push_word(out, ",\"sum\":")?;
    push_signed(out, sum)?;
    push_ends(out, ends)?;
    Ok(push_word(out, "}")?)
}

fn push_view_row(alloc: Global, out: &mut String, row: &ViewRow) -> Result<(), Refusal>
    ensures text { OnOk result (string_bytes out.new ≡ string_bytes out.old ++ view_row_json row.now) }
    ensures memory { IsOkUnless result Refusal.Memory }
{
    push_row(alloc, out, &row.0, row.1, row.2, row.3)
}

fn push_more_rows(alloc: Global, out: &mut String, rows: &[ViewRow]) -> Result<(), Refusal>
    ensures text { OnOk result (string_bytes out.new ≡ string_bytes out.old ++ flat_map (led view_row_json) rows.now) }
    ensures memory { IsOkUnless result Refusal.Memory }
{
    for row in rows {
        push_word(out, ",")?;
        push_view_row(alloc, out, row)?;
    }
    Ok(())
}

fn push_rows(alloc: Global, out: &mut String, rows: &[ViewRow]) -> Result<(), Refusal>
    ensures text { OnOk result (string_bytes out.new ≡ string_bytes out.old ++ commaed view_row_json rows.now) }
    ensures memory { IsOkUnless result Refusal.Memory }
{
    let Some((first, rest)) = rows.split_first() else {
        return Ok(());
    };
    push_view_row(alloc, out, first)?;
    push_more_rows(alloc, out, rest)
}

fn push_key(alloc: Global, out: &mut String, entry: &KeyDigest) -> Result<(), Refusal>
    ensures text { OnOk result (string_bytes out.new ≡ string_bytes out.old ++ key_digest_text entry.now) }
    ensures memory { IsOkUnless result Refusal.Memory }
{
    push_word(out, "{\"key\":")?;
    push_quoted(alloc, out, entry.0.text())?;
    push_word(out, ",\"digest\":")?;
    push_digest(alloc, out, entry.1)?;
    Ok(push_word(out, "}")?)
}

fn push_more_keys(alloc: Global, out: &mut String, keys: &[KeyDigest]) -> Result<(), Refusal>
    ensures text { OnOk result (string_bytes out.new ≡
        string_bytes out.old ++ flat_map (led key_digest_text) keys.now) }
    ensures memory { IsOkUnless result Refusal.Memory }
{
    for entry in keys {
        push_word(out, ",")?;
        push_key(alloc, out, entry)?;
    }
    Ok(())
}

pub fn push_keys(alloc: Global, out: &mut String, keys: &[KeyDigest]) -> Result<(), Refusal>
    ensures text { OnOk result (string_bytes out.new ≡ string_bytes out.old ++ commaed key_digest_text keys.now) }
    ensures memory { IsOkUnless result Refusal.Memory }
{
    let Some((first, rest)) = keys.split_first() else {
        return Ok(());
    };
    push_key(alloc, out, first)?;
    push_more_keys(alloc, out, rest)
}

/// The text to go on from.
pub fn push_next(alloc: Global, out: &mut String, text: &str) -> Result<(), Refusal>
    ensures text { OnOk result (string_bytes out.new ≡ string_bytes out.old ++ next_text (Some text.now)) }
    ensures memory { IsOkUnless result Refusal.Memory }
{
    push_word(out, ",\"next\":")?;
    push_quoted(alloc, out, text)
}

/// The place as the text that a query takes.
fn place_mark(alloc: Global, place: &Place) -> Result<String, Refusal>
    ensures text { IfOk result (λ text. string_bytes text ≡ mark_of_place place.now) }
    ensures memory { IsOkUnless result Refusal.Memory }
{
    let mut text = String::new(alloc);
    push_dot(&mut text, place.dot)?;
    push_word(&mut text, " ")?;
    push_word(&mut text, place.key.text())?;
    push_word(&mut text, " ")?;
    push_term(alloc, &mut text, &place.term)?;
    Ok(text)
}

pub fn push_place_next(
    alloc: Global,
    out: &mut String,
    places: &[Place],
    more: bool,
) -> Result<(), Refusal>
    ensures text { OnOk result (string_bytes out.new ≡
        string_bytes out.old ++ next_text (next_text_of mark_of_place more places.now)) }
    ensures memory { IsOkUnless result Refusal.Memory }
{
    if !more {
        return Ok(());
    }
    let Some(last) = places.last() else {
        return Ok(());
    };
    let text = place_mark(alloc, last)?;
    push_next(alloc, out, text.as_str())
}

fn push_row_next(
    alloc: Global,
    out: &mut String,
    rows: &[ViewRow],
    more: bool,
) -> Result<(), Refusal>
    ensures text { OnOk result (string_bytes out.new ≡
        string_bytes out.old ++ next_text (next_text_of row_mark more rows.now)) }
    ensures memory { IsOkUnless result Refusal.Memory }
{
    if !more {
        return Ok(());
    }
    let Some(last) = rows.last() else {
        return Ok(());
    };
    let text = last.0.print(alloc)?;
    push_next(alloc, out, text.as_str())
}

pub fn push_key_next(
    alloc: Global,
    out: &mut String,
    keys: &[KeyDigest],
    more: bool,
) -> Result<(), Refusal>
    ensures text { OnOk result (string_bytes out.new ≡
        string_bytes out.old ++ next_text (next_text_of key_mark more keys.now)) }
    ensures memory { IsOkUnless result Refusal.Memory }
{
    if !more {
        return Ok(());
    }
    let Some(last) = keys.last() else {
        return Ok(());
    };
    push_next(alloc, out, last.0.text())
}

/// A page of an index.
pub fn push_places_page(
    alloc: Global,
    out: &mut String,
    places: &[Place],
    more: bool,
) -> Result<(), Refusal>
    ensures text { OnOk result (string_bytes out.new ≡ string_bytes out.old ++ places_json places.now more) }
    ensures memory { IsOkUnless result Refusal.Memory }
{
    push_word(out, "{\"places\":[")?;
    push_places(alloc, out, places)?;
    push_word(out, "]")?;
    push_place_next(alloc, out, places, more)?;
    Ok(push_word(out, "}")?)
}

/// A page of a view.
pub fn push_rows_page(
    alloc: Global,
    out: &mut String,
    rows: &[ViewRow],
    more: bool,
) -> Result<(), Refusal>
    ensures text { OnOk result (string_bytes out.new ≡ string_bytes out.old ++ rows_text rows.now more) }
    ensures memory { IsOkUnless result Refusal.Memory }
{
    push_word(out, "{\"rows\":[")?;
    push_rows(alloc, out, rows)?;
    push_word(out, "]")?;
    push_row_next(alloc, out, rows, more)?;
    Ok(push_word(out, "}")?)
}

/// A page of a bucket.
pub fn push_keys_page(
    alloc: Global,
    out: &mut String,
    keys: &[KeyDigest],
    more: bool,
) -> Result<(), Refusal>
    ensures text { OnOk result (string_bytes out.new ≡ string_bytes out.old ++ keys_json keys.now more) }
    ensures memory { IsOkUnless result Refusal.Memory }
{
    push_word(out, "{\"keys\":[")?;
    push_keys(alloc, out, keys)?;
    push_word(out, "]")?;
    push_key_next(alloc, out, keys, more)?;
    Ok(push_word(out, "}")?)
}
