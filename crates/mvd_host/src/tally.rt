//! How many requests were answered, by their kind.
ghost use Rattle.std.specs.Prelude.{◌<◌};

use mvd_dots::Refusal;
use mvd_wire::{Reply, Request};

/// The number of kinds of requests.
pub const KINDS: usize = 14;

/// The places of the kinds that ask for a change.
const PUT: usize = 1;

const DELETE: usize = 2;

const PUSH: usize = 8;

/// How many requests of each kind were done, and how many were refused.
#[derive(Clone, Copy, Drop)]
pub struct Tally {
    pub done: [u64; KINDS],
    pub refused: [u64; KINDS],
}

impl Tally {
    pub fn new() -> Tally {
        Tally {
            done: [0; KINDS],
            refused: [0; KINDS],
        }
    }

    /// The number of puts, deletes and pushes.
    pub fn changes(&self) -> u64 {
        let mut changes: u64 = 0;
        for kind in [PUT, DELETE, PUSH] {
            changes = changes
                .saturating_add(self.done[kind])
                .saturating_add(self.refused[kind]);
        }
        changes
    }

    fn note(&mut self, request: &Request, reply: &Reply) {
        let kind = kind_of(request);
        match reply {
            Reply::Refused(_) => self.refused[kind] = self.refused[kind].saturating_add(1),
            _ => self.done[kind] = self.done[kind].saturating_add(1),
        }
    }

    /// Notes requests and the reply to each.
    pub(crate) fn note_all(&mut self, requests: &[Request], replies: &[Reply]) {
        let mut replies = replies;
        for request in requests {
            let Some((reply, others)) = replies.split_first() else {
                return;
            };
            self.note(request, reply);
            replies = others;
        }
    }

    /// Notes requests that were all refused so.
    pub(crate) fn note_refused(&mut self, requests: &[Request], refusal: Refusal) {
        for request in requests {
            self.note(request, &Reply::Refused(refusal));
        }
    }
}

/// The place of a request's kind, in the order of `Request`.
fn kind_of(request: &Request) -> usize
    ensures { result < 14 }
{
    match request {
        Request::Get(_) => 0,
        Request::Put(..) => PUT,
        Request::Delete(..) => DELETE,
        Request::Find(..) => 3,
        Request::Row(..) => 4,
        Request::Rows(..) => 5,
        Request::Node(_) => 6,
        Request::Bucket(..) => 7,
        Request::Push(..) => PUSH,
        Request::Range(..) => 9,
        Request::Keys(..) => 10,
        Request::Conflicts(_) => 11,
        Request::Hello(_) => 12,
        Request::Bye => 13,
    }
}
