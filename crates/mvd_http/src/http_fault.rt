//! What is wrong with a request before the site is asked: HTTP's own faults.
ghost use Rattle.std.specs.Prelude.{◌≡◌};

use crate::fields::{Answer, Content};
use http::StatusCode;

/// Why a request is not asked of the site.
#[derive(Clone, Copy)]
pub enum Fault {
    /// It is no HTTP.
    BadRequest,
    /// It does not name one host.
    HostMissing,
    /// It names a host by a name that is none of this server's.
    ForeignHost,
    /// It comes of a page of another origin.
    ForeignOrigin,
    /// Its path names nothing.
    NotFound,
    /// Its path is not asked by this method.
    MethodNotAllowed,
    /// It is a write under a condition of HTTP's own: a context stands for these.
    PreconditionFailed,
    /// Its body is too long, or has too many lines.
    ContentTooLarge,
    /// Its target is too long.
    UriTooLong,
    /// Its fields are too long, or too many.
    HeaderTooLarge,
    /// Its body has a coding that is not undone here.
    NotImplemented,
    /// The response that was to be sent is none.
    InternalError,
}

impl Fault {
    ghost use Rattle.mvd_http.specs.Faults.{answer_of, status_of, fault_text};

    /// The status of the response.
    pub fn status(self) -> StatusCode
        ensures { result ≡ status_of self }
    {
        match self {
            Fault::BadRequest | Fault::HostMissing => StatusCode::BAD_REQUEST,
            Fault::ForeignHost | Fault::ForeignOrigin => StatusCode::FORBIDDEN,
            Fault::NotFound => StatusCode::NOT_FOUND,
            Fault::MethodNotAllowed => StatusCode::METHOD_NOT_ALLOWED,
            Fault::PreconditionFailed => StatusCode::PRECONDITION_FAILED,
            Fault::ContentTooLarge => StatusCode::PAYLOAD_TOO_LARGE,
            Fault::UriTooLong => StatusCode::URI_TOO_LONG,
            Fault::HeaderTooLarge => StatusCode::REQUEST_HEADER_FIELDS_TOO_LARGE,
            Fault::NotImplemented => StatusCode::NOT_IMPLEMENTED,
            Fault::InternalError => StatusCode::INTERNAL_SERVER_ERROR,
        }
    }

    /// What the response says beside its body.
    pub fn answer(self) -> Answer
        ensures { result ≡ answer_of self }
    {
        Answer {
            status: self.status(),
            content: Content::Json,
            allow: None,
            asks_token: false,
            preflight: None,
        }
    }

    /// The body of the response, as JSON.
    pub fn body(self) -> &'static str
        ensures { result.now ≡ fault_text self }
    {
        match self {
            Fault::BadRequest => "{\"refused\":0,\"name\":\"BadRequest\"}",
            Fault::HostMissing => "{\"refused\":0,\"name\":\"HostMissing\"}",
            Fault::ForeignHost => "{\"refused\":0,\"name\":\"ForeignHost\"}",
            Fault::ForeignOrigin => "{\"refused\":0,\"name\":\"ForeignOrigin\"}",
            Fault::NotFound => "{\"refused\":0,\"name\":\"NotFound\"}",
            Fault::MethodNotAllowed => "{\"refused\":0,\"name\":\"MethodNotAllowed\"}",
            Fault::PreconditionFailed => "{\"refused\":0,\"name\":\"PreconditionFailed\"}",
            Fault::ContentTooLarge => "{\"refused\":0,\"name\":\"ContentTooLarge\"}",
            Fault::UriTooLong => "{\"refused\":0,\"name\":\"UriTooLong\"}",
            Fault::HeaderTooLarge => "{\"refused\":0,\"name\":\"HeaderTooLarge\"}",
            Fault::NotImplemented => "{\"refused\":0,\"name\":\"NotImplemented\"}",
            Fault::InternalError => "{\"refused\":0,\"name\":\"InternalError\"}",
        }
    }
}
