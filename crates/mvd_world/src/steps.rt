//! What may happen in a world, and what comes of it.
use mvd_keys::Key;
use mvd_sync::{Report, SyncFault};
use mvd_wire::{Reply, Request};

/// One step. Sites and messages are numbered from 1.
#[derive(Drop)]
pub enum Step {
    /// A put or a delete at a site.
    Write { site: u32, request: Request },
    /// A question to a site: for the state of a key, to an index, a view or the hash tree.
    Ask { site: u32, request: Request },
    /// A site's state of a key becomes the next message.
    Send { site: u32, key: Key },
    /// A message comes to a site: any that was sent, and as often as may be.
    Receive { site: u32, message: u64 },
    /// Two sites exchange what differs.
    Session { local: u32, peer: u32 },
}

/// What a step came to.
#[derive(Drop)]
pub enum Outcome {
    /// The site's reply, also where a message was refused.
    Replied(Reply),
    /// The message has this number.
    Sent(u64),
    /// The session ended with no fault.
    Met(Report),
    /// The session ended with a fault.
    Failed(SyncFault),
    /// There is no such site or message, or the two sites are one, or the request is of another sort. Nothing was
    /// changed.
    NoSuch,
}
