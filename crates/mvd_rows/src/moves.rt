//! A sibling that comes, or one that goes.

/// Which way a sibling moves.
#[derive(Clone, Copy)]
pub enum Way {
    Comes,
    Goes,
}
