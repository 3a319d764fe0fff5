//! A request that was taken.
ghost use Rattle.std.specs.Prelude.{◌≡◌, ◌↔◌, IfOk, IsTrue, codes, if◌then◌else◌, is_some, length, option_copied, option_map};
ghost use Rattle.http.specs.Request.{body_of, head_of};
ghost use Rattle.http_header.specs.HeaderMap.{get_all};
ghost use Rattle.mvd_http.specs.Asked.{IsQuestion};
ghost use Rattle.mvd_conn.specs.Passes.{pass_of};
ghost use Rattle.mvd_http.specs.Guard.{named_by};
ghost use Rattle.mvd_web.specs.declared.taken.Entry.TheVariants.{Free, NoToken};
ghost use Rattle.mvd_web.specs.Asked.{AsksIf, IsAskedBy, IsEntry, NamesHost, bearer_text, is_free, right_in as right_told};
ghost use Rattle.mvd_web.specs.Asked.{has_condition as condition_told, is_conditional as conditional_told};
ghost use Rattle.mvd_web.specs.Asked.{is_preflight as preflight_told, name_of as name_told, origin_of as origin_told};
ghost use Rattle.mvd_web.specs.Asked.{shared_with as shared_told, stranger_in as stranger_told};
ghost use Rattle.mvd_web.specs.Asked.{header_in as field_told, host_of as host_told, shown_by as token_told};
ghost use Rattle.mvd_web.specs.Asked.{target_of as target_told};

use bytes::Bytes;
use http::{HeaderValue, Request, Version};
use mvd_conn::{Passes, Right};
use mvd_dots::Refusal;
use mvd_http::{
    Fault, Names, Question, is_open_to_all, is_write, name_in, origin_in, question_of, stranger,
};
use std::alloc::{AllocError, Global};

/// Whether a request comes in, by its head alone.
#[derive(Clone, Copy)]
pub enum Entry {
    /// It may ask what this right allows.
    Open(Right),
    /// It needs no token, and shows none that is known: of the site it asks nothing.
    Free,
    /// It asks by which methods a page of another origin may ask.
    Preflight,
    /// It is a write under a condition of HTTP's own: a context stands for these.
    Conditional,
    /// It names no host, or more than one. HTTP has it refused.
    HostMissing,
    /// It names a host that is not this server, or comes of a page that may not ask it.
    Stranger(Fault),
    /// It shows no token that is known, and needs one.
    NoToken,
}

/// What a request asks, and how it is answered.
#[derive(Drop)]
pub struct Asked {
    pub entry: Entry,
    /// Its question, or why it has none. Of a request that does not come in none was read.
    pub question: Result<Question, Refusal>,
    /// Its response is sent without the body.
    pub is_head: bool,
    /// The origin of its page, where that is another than the host's own, and may read the response.
    pub origin: Option<Bytes>,
}

/// The value of the first field of a name.
fn field_in<'a>(request: &'a Request<Bytes>, name: &str) -> Option<&'a [u8]>
    ensures { option_copied result ≡ field_told name.now (head_of request.now).headers }
{
    match request.headers().get(name) {
        Some(value) => Some(value.as_bytes()),
        None => None,
    }
}

/// The number of its fields `Host`.
fn hosts_in(request: &Request<Bytes>) -> usize
    ensures { result ≡ length (get_all (head_of request.now).headers (codes "host")) }
{
    request.headers().get_all("host").iter().count()
}

/// Whether it has one field `Host`. In HTTP/1.0 it may have none.
fn names_host(request: &Request<Bytes>) -> bool
    ensures { IsTrue result ↔ NamesHost (head_of request.now) }
{
    let count = hosts_in(request);
    count == 1 || (count == 0 && request.version() == Version::HTTP_10)
}

/// The host that is asked: that of the target, or of the field.
fn host_of(request: &Request<Bytes>) -> Option<&[u8]>
    ensures { option_copied result ≡ host_told (head_of request.now) }
{
    match request.uri().authority() {
        Some(authority) => Some(authority.as_str().as_bytes()),
        None => field_in(request, "host"),
    }
}

/// The path and the query that are asked for.
fn target_of(request: &Request<Bytes>) -> &[u8]
    ensures { result.now ≡ target_told (head_of request.now) }
{
    match request.uri().path_and_query() {
        Some(target) => target.as_str().as_bytes(),
        None => &[],
    }
}

/// What stands behind `Bearer `.
#[tactic(auto, unfolding(mvd_http::specs::Paths::without))]
fn bearer_in(field: Option<&[u8]>) -> Option<&[u8]>
    ensures { option_copied result ≡ bearer_text (option_copied field.entry) }
{
    match field {
        Some(field) => field.strip_prefix(b"Bearer "),
        None => None,
    }
}

/// What stands behind `Bearer ` in the field `Authorization`.
fn shown_by(request: &Request<Bytes>) -> Option<&[u8]>
    ensures { option_copied result ≡ token_told (head_of request.now) }
{
    bearer_in(field_in(request, "authorization"))
}

/// The right by which a request asks: where tokens are asked for, that of the token which it shows, if that is known.
fn right_in(passes: Option<&Passes>, request: &Request<Bytes>) -> Option<Right>
    ensures { result ≡ right_told (option_copied passes.entry) (head_of request.now) }
{
    let Some(passes) = passes else {
        return Some(Right::ALL);
    };
    match shown_by(request) {
        Some(token) => right_of(passes, token),
        None => None,
    }
}

/// The right of a token, if that is known.
fn right_of(passes: &Passes, token: &[u8]) -> Option<Right>
    ensures { result ≡ option_map (λ pass. pass.right) (pass_of passes.now token.now) }
{
    match passes.of(token) {
        Some(pass) => Some(pass.right),
        None => None,
    }
}

/// Whether a request comes in that shows no token which is known.
fn entry_free(request: &Request<Bytes>) -> Entry
    ensures { result ≡ (if is_free (head_of request.now) then Free else NoToken) }
{
    if is_open_to_all(request.method().as_str().as_bytes(), target_of(request)) {
        return Entry::Free;
    }
    Entry::NoToken
}

/// The name of its host, where that is no address and not `localhost`.
fn name_of(request: &Request<Bytes>) -> Option<&[u8]>
    ensures { option_copied result ≡ name_told (head_of request.now) }
{
    match host_of(request) {
        Some(host) => name_in(host),
        None => None,
    }
}

/// The origin of its page, where that is another than the host's own.
fn origin_of(request: &Request<Bytes>) -> Option<&[u8]>
    ensures { option_copied result ≡ origin_told (head_of request.now) }
{
    origin_in(host_of(request), field_in(request, "origin"))
}

/// Why it is not answered that names such a host, or comes of such a page, if it is not.
fn stranger_in(names: &Names, request: &Request<Bytes>) -> Option<Fault>
    ensures { result ≡ stranger_told (named_by names.now) (head_of request.now) }
{
    stranger(names, name_of(request), origin_of(request))
}

fn has_other_origin(request: &Request<Bytes>) -> bool
    ensures { result ≡ is_some (origin_told (head_of request.now)) }
{
    match origin_of(request) {
        Some(_) => true,
        None => false,
    }
}

/// Whether it asks for a page of another origin by which methods that may ask.
fn is_preflight(request: &Request<Bytes>) -> bool
    ensures { result ≡ preflight_told (head_of request.now) }
{
    request.method().as_str().as_bytes() == b"OPTIONS".as_slice() && has_other_origin(request)
}

/// Whether it is a write under a condition of HTTP's own.
fn is_conditional(request: &Request<Bytes>) -> bool
    ensures { result ≡ conditional_told (head_of request.now) }
{
    is_write(request.method().as_str().as_bytes(), target_of(request)) && has_condition(request)
}

fn has_field(request: &Request<Bytes>, name: &str) -> bool
    ensures { result ≡ is_some (field_told name.now (head_of request.now).headers) }
{
    match field_in(request, name) {
        Some(_) => true,
        None => false,
    }
}

fn has_condition(request: &Request<Bytes>) -> bool
    ensures { result ≡ condition_told (head_of request.now) }
{
    has_field(request, "if-match") || has_field(request, "if-none-match")
}

/// Whether a request comes in. Of its body nothing is read.
fn entry_of(passes: Option<&Passes>, names: &Names, request: &Request<Bytes>) -> Entry
    ensures { IsEntry (option_copied passes.entry) (named_by names.now) (head_of request.now) result }
{
    if !names_host(request) {
        return Entry::HostMissing;
    }
    if let Some(fault) = stranger_in(names, request) {
        return Entry::Stranger(fault);
    }
    if is_preflight(request) {
        return Entry::Preflight;
    }
    let Some(right) = right_in(passes, request) else {
        return entry_free(request);
    };
    if is_conditional(request) {
        return Entry::Conditional;
    }
    Entry::Open(right)
}

fn copied(alloc: Global, bytes: Option<&[u8]>) -> Result<Option<Bytes>, AllocError>
    ensures { IfOk result (λ copy. copy ≡ option_copied bytes.entry) }
{
    match bytes {
        Some(bytes) => Ok(Some(Bytes::copy_from_slice(alloc, bytes)?)),
        None => Ok(None),
    }
}

/// The origin of the page that may read the response, where that is another than the host's own.
fn shared_with(
    alloc: Global,
    names: &Names,
    request: &Request<Bytes>,
) -> Result<Option<Bytes>, AllocError>
    ensures { IfOk result (λ origin. origin ≡ shared_told (named_by names.now) (head_of request.now)) }
{
    match stranger_in(names, request) {
        Some(_) => Ok(None),
        None => copied(alloc, origin_of(request)),
    }
}

/// What a request asks that comes in.
fn question_in(alloc: Global, request: &Request<Bytes>) -> Result<Question, Refusal>
    ensures { IsQuestion (head_of request.now).method (target_told (head_of request.now))
        (field_told (codes "mvd-context") (head_of request.now).headers) (body_of request.now) result }
{
    let method = request.method().as_str().as_bytes();
    let context = field_in(request, "mvd-context");
    let body = request.body().as_slice();
    question_of(alloc, method, target_of(request), context, body)
}

/// The same, where it comes in: of any other none is read.
fn question_if(alloc: Global, entry: Entry, request: &Request<Bytes>) -> Result<Question, Refusal>
    ensures { AsksIf entry request.now result }
{
    match entry {
        Entry::Open(_) | Entry::Free => question_in(alloc, request),
        Entry::Preflight => question_in(alloc, request),
        _ => Err(Refusal::NotAdmitted),
    }
}

/// Whether a request comes in, and what it asks then.
pub(crate) fn asked_by(
    alloc: Global,
    passes: Option<&Passes>,
    names: &Names,
    request: &Request<Bytes>,
) -> Result<Asked, AllocError>
    ensures { IfOk result (IsAskedBy (option_copied passes.entry) (named_by names.now) request.now) }
{
    let entry = entry_of(passes, names, request);
    let origin = shared_with(alloc, names, request)?;
    Ok(Asked {
        entry,
        question: question_if(alloc, entry, request),
        is_head: request.method().as_str().as_bytes() == b"HEAD".as_slice(),
        origin,
    })
}
