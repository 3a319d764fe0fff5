//! What a peer asks of a site.
use crate::prefix::Prefix;
use crate::token::Token;
use mvd_docs::{Document, Field, Term, ViewName};
use mvd_dots::{Context, Dot};
use mvd_keys::{Key, KeyState, Path, Place};

/// A request to one site.
#[derive(Drop)]
pub enum Request {
    /// The state of a key.
    Get(Key),
    /// A write of a document, whose author had seen these dots.
    Put(Key, Context, Document),
    /// The removal of what its author had seen.
    Delete(Key, Context),
    /// The places of a term in an index, after a key and a dot.
    Find(Field, Term, Option<(Key, Dot)>),
    /// One row of a view.
    Row(ViewName, Term),
    /// The rows of a view, after a term.
    Rows(ViewName, Option<Term>),
    /// The digests of a node of the hash tree.
    Node(Path),
    /// The keys of a bucket with their digests, after a key.
    Bucket(Path, Option<Key>),
    /// A state of the key, to be joined to the one held.
    Push(Key, KeyState),
    /// The places of an index from a term to a term, both included, after a place.
    Range(Field, Term, Term, Option<Place>),
    /// The keys that begin with a prefix, with how many siblings each has, after a key.
    Keys(Prefix, Option<Key>),
    /// The keys with two siblings or more, after a key.
    Conflicts(Option<Key>),
    /// A token, by which a server knows whom it serves.
    Hello(Token),
    /// The end of the connection.
    Bye,
}
