//! What keeps a request until it is answered.
ghost use Rattle.mvd_web.specs.Asked.{KeepsAsked};

use crate::spare::spare_for;
use crate::taken::{Asked, asked_by};
use bytes::Bytes;
use http::{Request, StatusCode};
use http_server::{Response, Service};
use mvd_conn::Passes;
use mvd_http::Names;
use std::alloc::{AllocError, Global};

/// It keeps one request. What it answers is never sent: the response is queued once it is known.
#[derive(Drop)]
pub(crate) struct Desk<'a> {
    pub(crate) alloc: Global,
    pub(crate) passes: Option<&'a Passes>,
    pub(crate) names: &'a Names,
    pub(crate) asked: Option<Asked>,
    /// Memory that was taken for the response to a write.
    pub(crate) spare: Option<Vec<u8>>,
}

impl Service for Desk<'_> {
    ghost answers = { KeepsAsked };

    fn call(
        &mut self,
        request: &Request<Bytes>,
        response: &mut Response,
    ) -> Result<(), AllocError> {
        if self.asked.is_some() {
            return Err(AllocError);
        }
        let spare = spare_for(self.alloc, request)?;
        let asked = asked_by(self.alloc, self.passes, self.names, request)?;
        self.spare = spare;
        self.asked = Some(asked);
        // No request is refused this status.
        response.status = StatusCode::NOT_FOUND;
        Ok(())
    }
}
