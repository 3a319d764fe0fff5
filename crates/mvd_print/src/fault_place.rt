//! Where a document's text is wrong, as a JSON Pointer.
ghost use Rattle.std.specs.Prelude.{◌≡◌, ◌++◌, IfOk, IsOkUnless, Ok, OnOk, option_map, string_bytes};
ghost use Rattle.std.specs.List.{flat_map};
ghost use Rattle.std.specs.Str.{chars};
ghost use Rattle.serde_json.specs.View.{view, items_view, members_view};
ghost use Rattle.mvd_dots.specs.Answer.{IsAnswer};
ghost use Rattle.mvd_print.specs.Place.{bad_item, bad_member, bad_number, escaped_char, fault_place, item_step};
ghost use Rattle.mvd_print.specs.Place.{fault_json, name_step};

use itoa::Buffer;
use mvd_dots::Refusal;
use serde_json::{Map, Value};
use std::alloc::{AllocError, Global};
use std::marker::Model;

/// The longest text in which a place is looked for.
const MOST_BYTES: usize = 65_536;

/// Where a document's text is wrong, seen as a JSON text.
#[derive(Drop)]
pub struct FaultPlace {
    text: String,
}

impl Model for FaultPlace {
    ghost use Rattle.std.specs.Prelude.{ℕ, List, string_bytes};

    ghost Value = { List ℕ };

    ghost view = { λ place. string_bytes place.text };
}

impl FaultPlace {
    /// The place of what a refusal finds wrong in a document's text.
    pub fn find(alloc: Global, refusal: Refusal, text: &str) -> Result<FaultPlace, Refusal>
        ensures { IsAnswer result (Ok (fault_json refusal text.now)) }
    {
        let at = Value::String(pointer_to(alloc, refusal, text)?);
        let text = at.to_string(alloc)?;
        Ok(FaultPlace { text })
    }

    pub fn text(&self) -> &str
        ensures { result.now ≡ self.now }
    {
        self.text.as_str()
    }
}

fn pointer_to(alloc: Global, refusal: Refusal, text: &str) -> Result<String, Refusal>
    ensures place { IfOk result (λ at. string_bytes at ≡ fault_place refusal text.now) }
    ensures memory { IsOkUnless result Refusal.Memory }
{
    if !matches!(refusal, Refusal::BadNumber) || text.len() > MOST_BYTES {
        return Ok(String::new(alloc));
    }
    match Value::from_str(alloc, text) {
        Ok(value) => Ok(bad_number(alloc, &value)?.unwrap_or(String::new(alloc))),
        Err(error) => if error.is_memory() {
            Err(Refusal::Memory)
        } else {
            Ok(String::new(alloc))
        },
    }
}

/// The pointer to the first number that is no `i64`, if there is one.
#[cycle(places)]
fn bad_number(alloc: Global, value: &Value) -> Result<Option<String>, AllocError>
    ensures { IfOk result (λ found. option_map string_bytes found ≡ bad_number (view value.now)) }
{
    match value {
        Value::Null | Value::Bool(_) | Value::String(_) => Ok(None),
        Value::Number(number) => if number.is_i64() {
            Ok(None)
        } else {
            Ok(Some(String::new(alloc)))
        },
        Value::Array(items) => bad_item(alloc, items),
        Value::Object(members) => bad_member(alloc, members),
    }
}

#[cycle(places)]
fn bad_item(alloc: Global, items: &Vec<Value>) -> Result<Option<String>, AllocError>
    ensures { IfOk result (λ found. option_map string_bytes found ≡ bad_item 0 (items_view items.now.items)) }
{
    let mut index = 0;
    for item in items {
        if let Some(rest) = bad_number(alloc, item)? {
            return Ok(Some(behind_item(alloc, index, rest.as_str())?));
        }
        index += 1;
    }
    Ok(None)
}

#[cycle(places)]
fn bad_member(alloc: Global, members: &Map<String, Value>) -> Result<Option<String>, AllocError>
    ensures { IfOk result (λ found. option_map string_bytes found ≡ bad_member (members_view members.now.entries)) }
{
    for (name, member) in members.iter() {
        if let Some(rest) = bad_number(alloc, member)? {
            return Ok(Some(behind_name(alloc, name.as_str(), rest.as_str())?));
        }
    }
    Ok(None)
}

/// The pointer whose first step is the item of this number.
fn behind_item(alloc: Global, index: usize, rest: &str) -> Result<String, AllocError>
    ensures { IfOk result (λ at. string_bytes at ≡ item_step index ++ rest.now) }
{
    let mut buffer = Buffer::new();
    let mut at = String::new(alloc);
    at.push_str("/")?;
    at.push_str(buffer.format(index as u64))?;
    at.push_str(rest)?;
    Ok(at)
}

/// The pointer whose first step is the member of this name.
fn behind_name(alloc: Global, name: &str, rest: &str) -> Result<String, AllocError>
    ensures { IfOk result (λ at. string_bytes at ≡ name_step name.now ++ rest.now) }
{
    let mut at = String::new(alloc);
    at.push_str("/")?;
    push_escaped(&mut at, name)?;
    at.push_str(rest)?;
    Ok(at)
}

/// Puts a name behind what `out` holds, with `~` as `~0` and `/` as `~1`.
fn push_escaped(out: &mut String, name: &str) -> Result<(), AllocError>
    ensures { OnOk result (string_bytes out.new ≡ string_bytes out.old ++ flat_map escaped_char (chars name.now)) }
{
    for letter in name.chars() {
        match letter {
            '~' => out.push_str("~0")?,
            '/' => out.push_str("~1")?,
            letter => out.push(letter)?,
        }
    }
    Ok(())
}
