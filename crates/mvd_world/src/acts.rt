//! What may happen in a world in which sessions are open, and what comes of it.
use crate::steps::{Outcome, Step};
use mvd_sync::{Report, SyncFault};

/// One act. Sites and sessions are numbered from 1.
#[derive(Drop)]
pub enum Act {
    /// A step, which may be a session that nothing disturbs.
    Take(Step),
    /// A session between two sites begins. Nothing is asked.
    Begin { local: u32, peer: u32 },
    /// A session that began goes on by one window: both sites are asked, and it takes their answers.
    Go { session: u64 },
}

/// What an act came to.
#[derive(Drop)]
pub enum Came {
    /// The step came to this.
    Took(Outcome),
    /// The session that began has this number.
    Began(u64),
    /// A window was asked, and its answers were taken.
    Went,
    /// The session has ended with no fault. Nothing was asked.
    Met(Report),
    /// The session has ended with a fault, or could not begin.
    Failed(SyncFault),
    /// There are no such sites, or they are one; or there is no such session, or it has ended. Nothing was changed.
    NoSuch,
}
