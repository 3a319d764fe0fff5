//! Documents in JSON: those of siblings, of states, and of a place.
ghost use Rattle.std.specs.Prelude.{◌≡◌, ◌++◌, OnOk, IsOkUnless, string_bytes};
ghost use Rattle.std.specs.List.{flat_map};
ghost use Rattle.mvd_keys.specs.State.{pair_of};
ghost use Rattle.mvd_http.specs.declared.question.Spelling.TheVariants.{Plain, Quoted};
ghost use Rattle.mvd_http.specs.Json.{commaed, document_json, led, sibling_json, state_json, state_members};

use crate::json_words::{push_context, push_dot, push_quoted, push_word};
use crate::question::Spelling;
use mvd_docs::Document;
use mvd_dots::Refusal;
use mvd_keys::{Key, KeyState, Sibling};
use std::alloc::Global;

/// A document, with the name of its member.
pub fn push_document(
    alloc: Global,
    out: &mut String,
    spelling: Spelling,
    document: &Document,
) -> Result<(), Refusal>
    ensures text { OnOk result (string_bytes out.new ≡
        string_bytes out.old ++ document_json spelling document.now) }
    ensures memory { IsOkUnless result Refusal.Memory }
{
    match spelling {
        Spelling::Plain => push_value(out, document.text()),
        Spelling::Quoted => push_text(alloc, out, document.text()),
    }
}

fn push_value(out: &mut String, text: &str) -> Result<(), Refusal>
    ensures text { OnOk result (string_bytes out.new ≡ string_bytes out.old ++ document_json Plain text.now) }
    ensures memory { IsOkUnless result Refusal.Memory }
{
    push_word(out, "\"document\":")?;
    Ok(push_word(out, text)?)
}

fn push_text(alloc: Global, out: &mut String, text: &str) -> Result<(), Refusal>
    ensures text { OnOk result (string_bytes out.new ≡ string_bytes out.old ++ document_json Quoted text.now) }
    ensures memory { IsOkUnless result Refusal.Memory }
{
    push_word(out, "\"text\":")?;
    push_quoted(alloc, out, text)
}

fn push_sibling(
    alloc: Global,
    out: &mut String,
    spelling: Spelling,
    sibling: &Sibling,
) -> Result<(), Refusal>
    ensures text { OnOk result (string_bytes out.new ≡
        string_bytes out.old ++ sibling_json spelling (pair_of sibling.now)) }
    ensures memory { IsOkUnless result Refusal.Memory }
{
    push_word(out, "{\"dot\":\"")?;
    push_dot(out, sibling.dot)?;
    push_word(out, "\",")?;
    push_document(alloc, out, spelling, &sibling.document)?;
    Ok(push_word(out, "}")?)
}

fn push_more_siblings(
    alloc: Global,
    out: &mut String,
    spelling: Spelling,
    siblings: &[Sibling],
) -> Result<(), Refusal>
    ensures text { OnOk result (string_bytes out.new ≡
        string_bytes out.old ++ flat_map (λ s. led (sibling_json spelling) (pair_of s)) siblings.now) }
    ensures memory { IsOkUnless result Refusal.Memory }
{
    for sibling in siblings {
        push_word(out, ",")?;
        push_sibling(alloc, out, spelling, sibling)?;
    }
    Ok(())
}

fn push_siblings(
    alloc: Global,
    out: &mut String,
    spelling: Spelling,
    siblings: &[Sibling],
) -> Result<(), Refusal>
    ensures text { OnOk result (string_bytes out.new ≡
        string_bytes out.old ++ commaed (λ s. sibling_json spelling (pair_of s)) siblings.now) }
    ensures memory { IsOkUnless result Refusal.Memory }
{
    let Some((first, rest)) = siblings.split_first() else {
        return Ok(());
    };
    push_sibling(alloc, out, spelling, first)?;
    push_more_siblings(alloc, out, spelling, rest)
}

/// What an object has of a state.
pub fn push_members(
    alloc: Global,
    out: &mut String,
    spelling: Spelling,
    state: &KeyState,
) -> Result<(), Refusal>
    ensures text { OnOk result (string_bytes out.new ≡
        string_bytes out.old ++ state_members spelling state.now) }
    ensures memory { IsOkUnless result Refusal.Memory }
{
    push_word(out, ",\"context\":\"")?;
    push_context(out, state.context())?;
    push_word(out, "\",\"siblings\":[")?;
    push_siblings(alloc, out, spelling, state.siblings())?;
    Ok(push_word(out, "]")?)
}

/// A key in its state.
pub fn push_state(
    alloc: Global,
    key: &Key,
    spelling: Spelling,
    state: &KeyState,
    out: &mut String,
) -> Result<(), Refusal>
    ensures text { OnOk result (string_bytes out.new ≡
        string_bytes out.old ++ state_json spelling key.now state.now) }
    ensures memory { IsOkUnless result Refusal.Memory }
{
    push_word(out, "{\"key\":")?;
    push_quoted(alloc, out, key.text())?;
    push_members(alloc, out, spelling, state)?;
    Ok(push_word(out, "}")?)
}
