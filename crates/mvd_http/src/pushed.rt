//! States that are pushed, each in a line.
ghost use Rattle.std.specs.Prelude.{◌≡◌, ◌≤◌, Ok, Some, None, IfOk, is_some, option_copied, option_map};
ghost use Rattle.std.specs.Option.{ForSome};
ghost use Rattle.serde_json.specs.Data.{depth as nesting, items_depth};
ghost use Rattle.serde_json.specs.Read.{max_depth};
ghost use Rattle.serde_json.specs.View.{items_view, view};
ghost use Rattle.mvd_dots.specs.Answer.{IsAnswer};
ghost use Rattle.mvd_keys.specs.State.{AreParts, pair_of, pairs_of};
ghost use Rattle.mvd_wire.specs.Codec.{Gives};
ghost use Rattle.mvd_http.specs.Pushed.{IsPushOf, are_siblings as siblings_all, document_told, dot_after, push_of as pushes};
ghost use Rattle.mvd_http.specs.Pushed.{sibling_of as sibling_form, sibling_read, sibling_said, siblings_read};
ghost use Rattle.mvd_http.specs.Pushed.{state_line_of, state_said};

use crate::members::{count_of, text_if};
use crate::place::dot_in;
use crate::posted::{context_in, document_of};
use mvd_docs::Document;
use mvd_dots::{Context, Dot, Refusal};
use mvd_keys::{Key, KeyState, Sibling};
use mvd_wire::Request;
use serde_json::Value;
use std::alloc::Global;

/// What a line says that is a state.
#[derive(Clone, Copy)]
pub struct StateLine<'a> {
    pub key: &'a str,
    pub context: &'a str,
    pub siblings: &'a [Value],
}

/// A sibling of it, with its document or the text of that.
#[derive(Clone, Copy)]
pub struct SiblingLine<'a> {
    pub dot: &'a str,
    pub document: Option<&'a Value>,
    pub text: Option<&'a str>,
}

/// What a line says, where it has the form of a state.
pub fn state_in(value: &Value) -> Option<StateLine<'_>>
    ensures { option_map state_said result ≡ state_line_of (view value.now) }
{
    let key = value.get("key")?.as_str()?;
    let context = value.get("context")?.as_str()?;
    let siblings = value.get("siblings")?.as_array()?;
    if count_of(value) != 3 || !are_siblings(siblings) {
        return None;
    }
    Some(StateLine {
        key,
        context,
        siblings,
    })
}

/// Whether each has the form of a sibling.
fn are_siblings(values: &[Value]) -> bool
    ensures { result ≡ siblings_all (items_view values.now) }
{
    for value in values {
        if !is_sibling(value) {
            return false;
        }
    }
    true
}

fn is_sibling(value: &Value) -> bool
    ensures { result ≡ is_some (sibling_form (view value.now)) }
{
    sibling_of(value).is_some()
}

/// What a sibling says, where it has the form of one.
fn sibling_of(value: &Value) -> Option<SiblingLine<'_>>
    ensures { option_map sibling_said result ≡ sibling_form (view value.now) }
{
    let dot = value.get("dot")?.as_str()?;
    let document = value.get("document");
    let text = text_if(value.get("text"))?;
    if count_of(value) != 2 || document.is_some() == text.is_some() {
        return None;
    }
    Some(SiblingLine {
        dot,
        document,
        text,
    })
}

/// What a state asks: to be pushed.
pub fn push_in(alloc: Global, line: &StateLine<'_>) -> Result<Request, Refusal>
    requires { items_depth (items_view line.now.siblings.now) ≤ max_depth }
    ensures { IsPushOf (state_said line.now) result }
{
    match Key::read(alloc, line.key) {
        Ok(key) => match context_in(alloc, line.context) {
            Ok(seen) => push_of(alloc, key, seen, line.siblings),
            Err(refusal) => Err(refusal),
        },
        Err(refusal) => Err(refusal),
    }
}

fn push_of(alloc: Global, key: Key, seen: Context, siblings: &[Value]) -> Result<Request, Refusal>
    requires { items_depth (items_view siblings.now) ≤ max_depth }
    ensures { IsAnswer result (pushes (items_view siblings.now) key seen) }
{
    let siblings = siblings_in(alloc, &seen, siblings)?;
    Ok(Request::Push(key, KeyState::of_parts(siblings, seen)))
}

/// The siblings of a state with this context.
#[tactic(auto, using(crate::proofs::Reading::read_parts))]
fn siblings_in(alloc: Global, seen: &Context, values: &[Value]) -> Result<Vec<Sibling>, Refusal>
    requires { items_depth (items_view values.now) ≤ max_depth }
    ensures read { Gives (λ v. pairs_of v.items) result (siblings_read seen.now None (items_view values.now)) }
    ensures parts { IfOk result (λ v. AreParts v.items seen.now) }
{
    let siblings = each_sibling_in(alloc, seen, values)?;
    Ok(siblings)
}

/// The siblings, by rising dot, each of a dot of the context.
fn each_sibling_in(alloc: Global, seen: &Context, values: &[Value]) -> Result<Vec<Sibling>, Refusal>
    requires { items_depth (items_view values.now) ≤ max_depth }
    ensures { Gives (λ v. pairs_of v.items) result (siblings_read seen.now None (items_view values.now)) }
{
    let mut siblings = Vec::with_capacity(alloc, values.len())?;
    let mut previous = None;
    for value in values {
        let sibling = sibling_in(alloc, seen, previous, value)?;
        previous = Some(sibling.dot);
        siblings.push(sibling)?;
    }
    Ok(siblings)
}

fn sibling_in(
    alloc: Global,
    seen: &Context,
    previous: Option<Dot>,
    value: &Value,
) -> Result<Sibling, Refusal>
    requires { nesting (view value.now) ≤ max_depth }
    ensures { Gives pair_of result (sibling_read seen.now previous (sibling_form (view value.now))) }
{
    let Some(line) = sibling_of(value) else {
        return Err(Refusal::BadBody);
    };
    let dot = next_dot(seen, previous, dot_in(line.dot.as_bytes())?)?;
    let document = document_in(alloc, &line)?;
    Ok(Sibling { dot, document })
}

/// A dot that rises above the one before it, and was seen.
fn next_dot(seen: &Context, previous: Option<Dot>, dot: Dot) -> Result<Dot, Refusal>
    ensures { result ≡ dot_after seen.now previous dot }
{
    let rises = match previous {
        None => true,
        Some(before) => before < dot,
    };
    if !rises || !seen.contains(dot) {
        return Err(Refusal::BadBody);
    }
    Ok(dot)
}

fn document_in(alloc: Global, line: &SiblingLine<'_>) -> Result<Document, Refusal>
    requires { ForSome line.now.document (λ v. nesting (view v.now) ≤ max_depth) }
    ensures { IsAnswer result (document_told (sibling_said line.now).document (sibling_said line.now).text) }
{
    match (line.document, line.text) {
        (Some(value), _) => document_of(alloc, value),
        (None, Some(text)) => Document::read(alloc, text),
        (None, None) => Err(Refusal::BadBody),
    }
}
