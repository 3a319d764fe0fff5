//! The lines in which many questions are told, and what is told of a list that has a line of another form.
ghost use Rattle.std.specs.Prelude.{◌≡◌, ◌<◌, ◌∷◌, ◌++◌, [], OnOk, IsOkUnless, map, string_bytes, true};
ghost use Rattle.mvd_keys.specs.Path.{is_path};
ghost use Rattle.mvd_http.specs.Answers.{AppendsIf, AppendsText, denied_told, digests_line, keys_line, later_told, line_told};
ghost use Rattle.mvd_http.specs.Answers.{refusal_in, state_line};
ghost use Rattle.mvd_http.specs.Json.{bad_line_json, bucket_line, denied_json, digit_letter, later_json, later_line, node_line, path_json};

use crate::documents::push_state;
use crate::json_lists::{KeyDigest, push_key_next, push_keys};
use crate::json_words::{push_digest, push_number, push_quoted, push_word};
use crate::question::Spelling;
use crate::responses::{push_children, push_refused};
use mvd_dots::Refusal;
use mvd_keys::{Key, Path};
use mvd_wire::{Digests, Reply, Request};
use std::alloc::{AllocError, Global};

/// Puts the line of the reply to a question of a list behind what `out` holds.
pub fn push_told(
    alloc: Global,
    request: &Request,
    spelling: Spelling,
    reply: &Reply,
    out: &mut String,
) -> Result<(), Refusal>
    ensures { AppendsText (line_told spelling request.now reply.now) (string_bytes out.old) (string_bytes out.new)
        result }
{
    match request {
        Request::Get(key) => push_state_line(alloc, key, spelling, reply, out),
        Request::Node(path) => push_digests_line(alloc, path, reply, out),
        Request::Bucket(path, _) => push_keys_line(alloc, path, reply, out),
        _ => Err(refusal_of(reply)),
    }
}

/// Why there is no line.
pub fn refusal_of(reply: &Reply) -> Refusal
    ensures { result ≡ refusal_in reply.now }
{
    match reply {
        Reply::Refused(refusal) => *refusal,
        _ => Refusal::BadKind,
    }
}

fn push_state_line(
    alloc: Global,
    key: &Key,
    spelling: Spelling,
    reply: &Reply,
    out: &mut String,
) -> Result<(), Refusal>
    ensures { AppendsText (state_line spelling key.now reply.now) (string_bytes out.old) (string_bytes out.new)
        result }
{
    match reply {
        Reply::State(state) => push_state(alloc, key, spelling, state, out),
        _ => Err(refusal_of(reply)),
    }
}

fn push_digests_line(
    alloc: Global,
    path: &Path,
    reply: &Reply,
    out: &mut String,
) -> Result<(), Refusal>
    ensures { AppendsText (digests_line path.now reply.now) (string_bytes out.old) (string_bytes out.new) result }
{
    match reply {
        Reply::Digests(digests) => push_node_line(alloc, path, digests, out),
        _ => Err(refusal_of(reply)),
    }
}

fn push_keys_line(
    alloc: Global,
    path: &Path,
    reply: &Reply,
    out: &mut String,
) -> Result<(), Refusal>
    ensures { AppendsText (keys_line path.now reply.now) (string_bytes out.old) (string_bytes out.new) result }
{
    match reply {
        Reply::Keys(keys, more) => push_bucket_line(alloc, path, keys.as_slice(), *more, out),
        _ => Err(refusal_of(reply)),
    }
}

/// Puts what is told in place of the reply, where much is told. Whether there is such a line.
pub fn push_later(alloc: Global, request: &Request, out: &mut String) -> Result<bool, Refusal>
    ensures { AppendsIf (later_told request.now) (string_bytes out.old) (string_bytes out.new) result }
{
    match request {
        Request::Get(key) => push_later_key(alloc, key, out)?,
        Request::Bucket(path, _) => push_later_bucket(path, out)?,
        _ => return Ok(false),
    }
    Ok(true)
}

pub fn push_later_key(alloc: Global, key: &Key, out: &mut String) -> Result<(), Refusal>
    ensures text { OnOk result (string_bytes out.new ≡ string_bytes out.old ++ later_json key.now) }
    ensures memory { IsOkUnless result Refusal.Memory }
{
    push_word(out, "{\"key\":")?;
    push_quoted(alloc, out, key.text())?;
    Ok(push_word(out, ",\"later\":true}")?)
}

/// Puts what is told in place of the reply to a question that may not be asked.
pub fn push_denied(alloc: Global, request: &Request, out: &mut String) -> Result<(), Refusal>
    ensures text { OnOk result (string_bytes out.new ≡ string_bytes out.old ++ denied_told request.now) }
    ensures memory { IsOkUnless result Refusal.Memory }
{
    match request {
        Request::Get(key) => push_denied_key(alloc, key, out),
        _ => Ok(push_refused(out, Refusal::NotAdmitted)?),
    }
}

fn push_denied_key(alloc: Global, key: &Key, out: &mut String) -> Result<(), Refusal>
    ensures text { OnOk result (string_bytes out.new ≡ string_bytes out.old ++ denied_json key.now) }
    ensures memory { IsOkUnless result Refusal.Memory }
{
    push_word(out, "{\"key\":")?;
    push_quoted(alloc, out, key.text())?;
    Ok(push_word(out, ",\"refused\":38,\"name\":\"NotAdmitted\"}")?)
}

fn push_later_bucket(path: &Path, out: &mut String) -> Result<(), AllocError>
    ensures { OnOk result (string_bytes out.new ≡ string_bytes out.old ++ later_line path.now) }
{
    push_path(out, path)?;
    push_word(out, "\"keys\":[],\"next\":\"\"}")
}

fn push_node_line(
    alloc: Global,
    path: &Path,
    digests: &Digests,
    out: &mut String,
) -> Result<(), Refusal>
    ensures text { OnOk result (string_bytes out.new ≡
        string_bytes out.old ++ node_line path.now digests.now.own digests.now.children) }
    ensures memory { IsOkUnless result Refusal.Memory }
{
    push_path(out, path)?;
    push_word(out, "\"digest\":")?;
    push_digest(alloc, out, digests.own)?;
    push_children(alloc, out, &digests.children)?;
    Ok(push_word(out, "}")?)
}

fn push_bucket_line(
    alloc: Global,
    path: &Path,
    keys: &[KeyDigest],
    more: bool,
    out: &mut String,
) -> Result<(), Refusal>
    ensures text { OnOk result (string_bytes out.new ≡ string_bytes out.old ++ bucket_line path.now keys.now more) }
    ensures memory { IsOkUnless result Refusal.Memory }
{
    push_path(out, path)?;
    push_word(out, "\"keys\":[")?;
    push_keys(alloc, out, keys)?;
    push_word(out, "]")?;
    push_key_next(alloc, out, keys, more)?;
    Ok(push_word(out, "}")?)
}

/// The front of an object with a path.
fn push_path(out: &mut String, path: &Path) -> Result<(), AllocError>
    ensures { OnOk result (string_bytes out.new ≡ string_bytes out.old ++ path_json path.now) }
{
    push_word(out, "{\"path\":\"")?;
    push_digits(out, path.digits())?;
    push_word(out, "\",")
}

fn push_digits(out: &mut String, digits: &[u8]) -> Result<(), AllocError>
    requires { is_path digits.now ≡ true }
    ensures { OnOk result (string_bytes out.new ≡ string_bytes out.old ++ map digit_letter digits.now) }
{
    for digit in digits {
        push_digit(out, *digit)?;
    }
    Ok(())
}

fn push_digit(out: &mut String, digit: u8) -> Result<(), AllocError>
    requires { digit < 16 }
    ensures { OnOk result (string_bytes out.new ≡ string_bytes out.old ++ digit_letter digit ∷ []) }
{
    push_word(out, letter_of(digit))
}

fn letter_of(digit: u8) -> &'static str
    requires { digit < 16 }
    ensures { result.now ≡ digit_letter digit ∷ [] }
{
    match digit {
        0 => "0",
        1 => "1",
        2 => "2",
        3 => "3",
        4 => "4",
        5 => "5",
        6 => "6",
        7 => "7",
        8 => "8",
        9 => "9",
        10 => "a",
        11 => "b",
        12 => "c",
        13 => "d",
        14 => "e",
        _ => "f",
    }
}

/// Puts the body of a refused list there, whose line of this number has another form.
pub fn push_bad_line(out: &mut String, line: u64) -> Result<(), AllocError>
    ensures { OnOk result (string_bytes out.new ≡ string_bytes out.old ++ bad_line_json line) }
{
    push_word(out, "{\"refused\":33,\"name\":\"BadBody\",\"line\":")?;
    push_number(out, line)?;
    Ok(push_word(out, "}")?)
}
