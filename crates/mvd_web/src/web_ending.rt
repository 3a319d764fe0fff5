//! How an HTTP connection ends, in the words of the other connections, and what is said of a request that is none.
ghost use Rattle.std.specs.Prelude.{◌≡◌};
ghost use Rattle.mvd_web.specs.Ends.{ending_of_state as ending_told, fault_in as fault_told, fault_of as fault_named};
ghost use Rattle.mvd_web.specs.Ends.{part_fault as part_named, read_fault as read_named, refusal_of as refusal_told};

use http_server::{Reason, State};
use http1::ReadError;
use mvd_dots::Refusal;
use mvd_http::Fault;
use mvd_wire::Ending;

/// How a connection ended that stands so, or `None` where it goes on.
pub(crate) fn ending_of(state: State) -> Option<Ending>
    ensures { result ≡ ending_told state }
{
    match state {
        State::Open => None,
        State::Closing(Reason::Asked) | State::Upgraded => Some(Ending::Bye),
        State::Closing(Reason::EndOfInput) => Some(Ending::End),
        State::Closing(Reason::Refused(why)) => Some(Ending::Stopped(refusal_of(why))),
        State::Aborted => Some(Ending::Stopped(Refusal::Memory)),
    }
}

/// The refusal that one of HTTP's own is told as.
fn refusal_of(why: http_server::Refusal) -> Refusal
    ensures { result ≡ refusal_told why }
{
    match why {
        http_server::Refusal::Truncated => Refusal::Truncated,
        http_server::Refusal::BodyTooLarge => Refusal::FrameTooLong,
        _ => Refusal::BadBody,
    }
}

/// What is said of the request that was refused, where the connection stands so.
pub(crate) fn fault_in(state: State) -> Option<Fault>
    ensures { result ≡ fault_told state }
{
    match state {
        State::Closing(Reason::Refused(why)) => Some(fault_of(why)),
        _ => None,
    }
}

fn fault_of(why: http_server::Refusal) -> Fault
    ensures { result ≡ fault_named why }
{
    match why {
        http_server::Refusal::Truncated | http_server::Refusal::InvalidHost => Fault::BadRequest,
        http_server::Refusal::Unreadable(error) => read_fault(error),
        http_server::Refusal::BodyTooLarge => Fault::ContentTooLarge,
        http_server::Refusal::InvalidPart(error) => part_fault(error),
        http_server::Refusal::UnknownCoding => Fault::NotImplemented,
        http_server::Refusal::InvalidResponse(_) => Fault::InternalError,
    }
}

/// The fault of what cannot be read.
fn read_fault(error: ReadError) -> Fault
    ensures { result ≡ read_named error }
{
    match error {
        ReadError::UriTooLong => Fault::UriTooLong,
        ReadError::Host => Fault::HostMissing,
        error => if error.status() == 431 {
            Fault::HeaderTooLarge
        } else {
            Fault::BadRequest
        },
    }
}

/// The fault of a part that has a wrong form.
fn part_fault(error: http::Error) -> Fault
    ensures { result ≡ part_named error }
{
    match error {
        http::Error::HeaderName | http::Error::MaxSizeReached => Fault::HeaderTooLarge,
        http::Error::Uri(error) => if error.is_too_long() {
            Fault::UriTooLong
        } else {
            Fault::BadRequest
        },
        _ => Fault::BadRequest,
    }
}
