//! What a session tells.
ghost use Rattle.std.specs.Prelude.{◌≡◌};
ghost use Rattle.mvd_sync.specs.Machines.{fault_at, other_of};

use mvd_dots::Refusal;
use mvd_keys::Key;
use mvd_wire::Items;
use thiserror::Error;

/// One of the two sides of a session.
#[derive(Clone, Copy, Debug, PartialEq, Eq, Drop)]
pub enum Side {
    Local,
    Peer,
}

/// Why a session ended, and by which side.
#[derive(Clone, Copy, Debug, PartialEq, Eq, Drop, Error)]
pub enum SyncFault {
    /// The local side refused; or it is no side of this kind (33), or as many questions were asked of it as
    /// may be (36), or memory was refused for a question to it or to the session itself.
    #[error("fault {0} at this side")]
    Local(Refusal),
    /// The peer refused; or it is no side of this kind (33), or as many questions were asked of it as
    /// may be (36), or memory was refused for a question to it.
    #[error("fault {0} at the other side")]
    Peer(Refusal),
}

/// A key that was refused, by which side, and how.
#[derive(Drop)]
pub struct Left {
    pub key: Key,
    pub side: Side,
    pub refusal: Refusal,
}

/// What a session did.
#[derive(Drop)]
pub struct Report {
    /// How many keys differed and were exchanged.
    pub keys: u64,
    /// How many keys were refused, and left.
    pub refused: u64,
    /// Of how many keys the local side had not seen a dot of its own that the peer had.
    pub old: u64,
    /// The keys that were refused, but at most a hundred of them.
    pub first_refused: Items<Left>,
}

/// The fault of a side.
pub(crate) fn fault_at(side: Side, refusal: Refusal) -> SyncFault
    ensures { result ≡ fault_at side refusal }
{
    match side {
        Side::Local => SyncFault::Local(refusal),
        Side::Peer => SyncFault::Peer(refusal),
    }
}

/// The other side.
pub(crate) fn other_of(side: Side) -> Side
    ensures { result ≡ other_of side }
{
    match side {
        Side::Local => Side::Peer,
        Side::Peer => Side::Local,
    }
}
