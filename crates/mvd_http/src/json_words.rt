//! Words, put behind what was printed. Numbers take no memory but that of the text which grows.
ghost use Rattle.std.specs.Prelude.{◌≡◌, ◌++◌, OnOk, IsOkUnless, length, string_bytes};
ghost use Rattle.std.specs.Fmt.{decimal, signed_decimal};
ghost use Rattle.mvd_dots.specs.Text.{text_of};
ghost use Rattle.mvd_print.specs.Text.{dot_text, term_text};
ghost use Rattle.mvd_http.specs.Json.{digest_json, quoted};
ghost use Rattle.mvd_http.specs.Room.{FillsRoom};

use itoa::Buffer;
use mvd_docs::Term;
use mvd_dots::{Context, Dot, Refusal};
use serde_json::Value;
use std::alloc::{AllocError, Global};

pub fn push_word(out: &mut String, word: &str) -> Result<(), AllocError>
    ensures text { OnOk result (string_bytes out.new ≡ string_bytes out.old ++ word.now) }
    ensures room { FillsRoom result out.old (length word.now) out.new }
{
    out.push_str(word)
}

pub fn push_number(out: &mut String, number: u64) -> Result<(), AllocError>
    ensures text { OnOk result (string_bytes out.new ≡ string_bytes out.old ++ decimal number) }
    ensures room { FillsRoom result out.old (length (decimal number)) out.new }
{
    let mut buffer = Buffer::new();
    push_word(out, buffer.format(number))
}

pub fn push_signed(out: &mut String, number: i128) -> Result<(), AllocError>
    ensures text { OnOk result (string_bytes out.new ≡ string_bytes out.old ++ signed_decimal number) }
{
    let mut buffer = Buffer::new();
    push_word(out, buffer.format(number))
}

pub fn push_whole(out: &mut String, number: i64) -> Result<(), AllocError>
    ensures text { OnOk result (string_bytes out.new ≡ string_bytes out.old ++ signed_decimal number) }
{
    let mut buffer = Buffer::new();
    push_word(out, buffer.format(number))
}

/// The site, a `:`, and the counter.
pub fn push_dot(out: &mut String, dot: Dot) -> Result<(), AllocError>
    ensures text { OnOk result (string_bytes out.new ≡ string_bytes out.old ++ dot_text dot) }
    ensures room { FillsRoom result out.old (length (dot_text dot)) out.new }
{
    push_number(out, u64::from(dot.site()))?;
    push_word(out, ":")?;
    push_number(out, dot.counter())
}

/// The term as compact JSON.
pub fn push_term(alloc: Global, out: &mut String, term: &Term) -> Result<(), Refusal>
    ensures text { OnOk result (string_bytes out.new ≡ string_bytes out.old ++ term_text term.now) }
    ensures memory { IsOkUnless result Refusal.Memory }
{
    let text = term.print(alloc)?;
    Ok(push_word(out, text.as_str())?)
}

pub fn push_context(out: &mut String, context: &Context) -> Result<(), Refusal>
    ensures text { OnOk result (string_bytes out.new ≡ string_bytes out.old ++ text_of context.now) }
    ensures memory { IsOkUnless result Refusal.Memory }
{
    let text = context.print()?;
    Ok(push_word(out, text.as_str())?)
}

/// The text as a JSON string.
pub fn push_quoted(alloc: Global, out: &mut String, text: &str) -> Result<(), Refusal>
    ensures text { OnOk result (string_bytes out.new ≡ string_bytes out.old ++ quoted text.now) }
    ensures memory { IsOkUnless result Refusal.Memory }
{
    let value = Value::String(String::from_str(alloc, text)?);
    let printed = value.to_string(alloc)?;
    Ok(push_word(out, printed.as_str())?)
}

/// The digest's digits as a JSON string.
pub fn push_digest(alloc: Global, out: &mut String, digest: [u8; 32]) -> Result<(), Refusal>
    ensures text { OnOk result (string_bytes out.new ≡ string_bytes out.old ++ digest_json digest) }
    ensures memory { IsOkUnless result Refusal.Memory }
{
    let text = hex::encode(alloc, digest)?;
    push_word(out, "\"")?;
    push_word(out, text.as_str())?;
    Ok(push_word(out, "\"")?)
}
