//! What answers requests.
ghost use Rattle.mvd_wire.specs.declared.reply.Reply.{Reply};
ghost use Rattle.mvd_wire.specs.declared.request.Request.{Request};

use mvd_wire::{Reply, Request};

/// Something that answers requests: a site of a world, a stored one, or one at the other end of a connection. What its
/// replies mean is its own promise, and nothing here rests on it.
pub trait Endpoint {
    /// What it may be after a request, and how it may have replied.
    ghost answers: { Self → Self → Request → Reply → Type 0 };

    /// The reply to a request.
    fn ask(&mut self, request: Request) -> Reply
        ensures { answers self.old self.new request result };
}
