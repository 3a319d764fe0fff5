//! What is at the other end of a connection, asked by request.
ghost use Rattle.mvd_remote.specs.Remotes.{RepliesFar};

use crate::line::Line;
use crate::remote::Remote;
use mvd_peer::Endpoint;
use mvd_wire::{Reply, Request};

impl<L: Line> Endpoint for Remote<L> {
    ghost answers = { RepliesFar L.Line };

    fn ask(&mut self, request: Request) -> Reply {
        let told = Remote::ask(self, &request);
        drop(request);
        match told {
            Ok(reply) => reply,
            Err(refusal) => Reply::Refused(refusal),
        }
    }
}
