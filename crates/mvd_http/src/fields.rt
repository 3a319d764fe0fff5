//! The fields of a response.
ghost use Rattle.std.specs.Prelude.{◌≡◌, ◌++◌, OnOk, string_bytes};
ghost use Rattle.http_server.specs.Response.{IsBlank, IsResponse, fields_of};
ghost use Rattle.mvd_http.specs.Fields.{allow_of, challenge_of, common, fields_for, guards, names, permits};
ghost use Rattle.mvd_http.specs.Fields.{preflight_of, type_of, typed};

use crate::question::Methods;
use bytes::BufMut;
use http::{HeaderName, HeaderValue, StatusCode};
use http_server::Response;
use std::alloc::AllocError;

/// What a body is.
#[derive(Clone, Copy)]
pub enum Content {
    /// There is none.
    Nothing,
    Json,
    /// Lines of JSON.
    Lines,
    Html,
    Plain,
}

/// What a response says beside its body.
#[derive(Clone, Copy)]
pub struct Answer {
    pub status: StatusCode,
    pub content: Content,
    /// The methods by which it is asked, where it was asked by another.
    pub allow: Option<Methods>,
    /// Whether it says that a token is asked for.
    pub asks_token: bool,
    /// The methods by which a page of another origin may ask, where it asked which.
    pub preflight: Option<Methods>,
}

const POLICY: &str =
    "default-src 'none'; script-src 'sha256-+G2rsmeBtfcNlT+2Yv/tJfS67U9qMTspi6ul3VNdDWI='; style-src 'sha256-GfXVPu/24CyMDZkrHnm/405USX81HQtD5DIfoaMqPsA='; connect-src 'self'; img-src data:; base-uri 'none'; form-action 'none'; frame-ancestors 'none'; require-trusted-types-for 'script'; trusted-types 'none'";

/// Fills a response.
pub fn fill(response: &mut Response, answer: Answer, body: &str) -> Result<(), AllocError>
    requires { IsBlank response.old }
    ensures { OnOk result (IsResponse answer.status (fields_for answer) body.now response.new) }
{
    add_common(response)?;
    add_type(response, answer.content)?;
    add_allow(response, answer.allow)?;
    add_challenge(response, answer.asks_token)?;
    add_preflight(response, answer.preflight)?;
    response.status = answer.status;
    response.body.put_slice(body.as_bytes())?;
    Ok(())
}

/// The fields of each response.
fn add_common(response: &mut Response) -> Result<(), AllocError>
    ensures fields { OnOk result (fields_of response.new ≡ fields_of response.old ++ common) }
    ensures body { response.new.body ≡ response.old.body }
{
    let cache = HeaderName::from_static("cache-control");
    response.add_header(cache, HeaderValue::from_static("no-store"))
}

/// The fields of the page alone: what it may load and run.
fn add_guards(response: &mut Response) -> Result<(), AllocError>
    ensures fields { OnOk result (fields_of response.new ≡ fields_of response.old ++ guards) }
    ensures body { response.new.body ≡ response.old.body }
{
    let policy = HeaderName::from_static("content-security-policy");
    response.add_header(policy, HeaderValue::from_static(POLICY))?;
    let options = HeaderName::from_static("x-content-type-options");
    response.add_header(options, HeaderValue::from_static("nosniff"))?;
    Ok(())
}

fn add_typed(response: &mut Response, value: HeaderValue) -> Result<(), AllocError>
    ensures fields { OnOk result (fields_of response.new ≡ fields_of response.old ++ typed value.bytes) }
    ensures body { response.new.body ≡ response.old.body }
{
    response.add_header(HeaderName::from_static("content-type"), value)
}

/// The fields of the page, and its type.
fn add_page(response: &mut Response) -> Result<(), AllocError>
    ensures fields { OnOk result (fields_of response.new ≡ fields_of response.old ++ type_of Content.Html) }
    ensures body { response.new.body ≡ response.old.body }
{
    add_guards(response)?;
    add_typed(
        response,
        HeaderValue::from_static("text/html; charset=utf-8"),
    )?;
    Ok(())
}

/// The type of the body.
fn add_type(response: &mut Response, content: Content) -> Result<(), AllocError>
    ensures fields { OnOk result (fields_of response.new ≡ fields_of response.old ++ type_of content) }
    ensures body { response.new.body ≡ response.old.body }
{
    match content {
        Content::Nothing => Ok(()),
        Content::Json => add_typed(response, HeaderValue::from_static("application/json")),
        Content::Lines => add_typed(response, HeaderValue::from_static("application/x-ndjson")),
        Content::Html => add_page(response),
        Content::Plain => add_typed(
            response,
            HeaderValue::from_static("text/plain; charset=utf-8"),
        ),
    }
}

/// The names of methods.
fn names_of(methods: Methods) -> HeaderValue
    ensures { result.bytes ≡ names methods }
{
    match methods {
        Methods::OfList => HeaderValue::from_static("GET, HEAD"),
        Methods::OfKeys => HeaderValue::from_static("GET, HEAD, POST"),
        Methods::OfKey => HeaderValue::from_static("GET, HEAD, PUT, DELETE"),
        Methods::OfPost => HeaderValue::from_static("POST"),
    }
}

/// The methods by which it is asked.
fn add_allow(response: &mut Response, allow: Option<Methods>) -> Result<(), AllocError>
    ensures fields { OnOk result (fields_of response.new ≡ fields_of response.old ++ allow_of allow) }
    ensures body { response.new.body ≡ response.old.body }
{
    match allow {
        Some(methods) => response.add_header(HeaderName::from_static("allow"), names_of(methods)),
        None => Ok(()),
    }
}

/// That a token is asked for.
fn add_challenge(response: &mut Response, asks_token: bool) -> Result<(), AllocError>
    ensures fields { OnOk result (fields_of response.new ≡ fields_of response.old ++ challenge_of asks_token) }
    ensures body { response.new.body ≡ response.old.body }
{
    if !asks_token {
        return Ok(());
    }
    let name = HeaderName::from_static("www-authenticate");
    response.add_header(name, HeaderValue::from_static("Bearer"))
}

/// By which methods and with which fields a page of another origin may ask, and for how many seconds it need not ask
/// that again.
fn add_preflight(response: &mut Response, preflight: Option<Methods>) -> Result<(), AllocError>
    ensures fields { OnOk result (fields_of response.new ≡ fields_of response.old ++ preflight_of preflight) }
    ensures body { response.new.body ≡ response.old.body }
{
    match preflight {
        Some(methods) => add_permits(response, methods),
        None => Ok(()),
    }
}

fn add_permits(response: &mut Response, methods: Methods) -> Result<(), AllocError>
    ensures fields { OnOk result (fields_of response.new ≡ fields_of response.old ++ permits methods) }
    ensures body { response.new.body ≡ response.old.body }
{
    let by = HeaderName::from_static("access-control-allow-methods");
    response.add_header(by, names_of(methods))?;
    let with = HeaderName::from_static("access-control-allow-headers");
    response.add_header(
        with,
        HeaderValue::from_static("authorization, content-type, mvd-context"),
    )?;
    let seconds = HeaderName::from_static("access-control-max-age");
    response.add_header(seconds, HeaderValue::from_static("7200"))?;
    Ok(())
}
