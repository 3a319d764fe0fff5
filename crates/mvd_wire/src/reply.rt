//! What a site answers.
use crate::items::Items;
use mvd_docs::Term;
use mvd_dots::{Dot, Refusal};
use mvd_keys::{Key, KeyState, Place};

/// A row of a view: how many siblings it has, the sum of their numbers, and the least and the greatest of these.
#[derive(Drop)]
pub struct RowValue {
    pub count: u64,
    pub sum: i128,
    pub ends: Option<(i64, i64)>,
}

/// The digest of a node of the hash tree, and those of its children, which a bucket has not.
#[derive(Drop)]
pub struct Digests {
    pub own: [u8; 32],
    pub children: Option<[[u8; 32]; 16]>,
}

/// The reply to one request.
#[derive(Drop)]
pub enum Reply {
    /// The state of the key that was asked for.
    State(KeyState),
    /// A put was taken, and has this dot.
    Written(Dot),
    /// The request was done.
    Done,
    /// A page of an index, and whether more follows.
    Places(Items<Place>, bool),
    /// A row of a view.
    Row(RowValue),
    /// A page of a view, and whether more follows: terms with the parts of their rows.
    Rows(Items<(Term, u64, i128, Option<(i64, i64)>)>, bool),
    /// The digests of a node.
    Digests(Digests),
    /// A page of a bucket, and whether more follows: keys with their digests.
    Keys(Items<(Key, [u8; 32])>, bool),
    /// A page of keys with their numbers of siblings, and whether more follows.
    Counts(Items<(Key, u32)>, bool),
    /// The request was refused, and changed nothing.
    Refused(Refusal),
}
