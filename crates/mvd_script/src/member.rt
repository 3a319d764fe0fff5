//! A site of a world, which is asked.
ghost use Rattle.std.specs.Prelude.{◌≡◌};
ghost use Rattle.mvd_script.specs.Script.{asked_step, reply_in};
ghost use Rattle.mvd_script.specs.Staged.{MemberReplies};

use mvd_dots::Refusal;
use mvd_peer::Endpoint;
use mvd_wire::{Reply, Request};
use mvd_world::{Outcome, Step, World};

/// A world, and the site of it that is asked.
#[derive(Drop)]
pub struct Member {
    pub world: World,
    pub site: u32,
}

impl Endpoint for Member {
    ghost answers = { MemberReplies };

    fn ask(&mut self, request: Request) -> Reply {
        let step = step_of(self.site, request);
        let outcome = self.world.step(&step);
        drop(step);
        reply_of(outcome)
    }
}

/// The step by which a site is asked.
fn step_of(site: u32, request: Request) -> Step
    ensures { result ≡ asked_step site request }
{
    if matches!(request, Request::Put(..) | Request::Delete(..)) {
        Step::Write { site, request }
    } else {
        Step::Ask { site, request }
    }
}

/// The reply that an outcome is.
fn reply_of(outcome: Outcome) -> Reply
    ensures { result ≡ reply_in outcome }
{
    match outcome {
        Outcome::Replied(reply) => reply,
        other => {
            drop(other);
            Reply::Refused(Refusal::BadKind)
        }
    }
}
