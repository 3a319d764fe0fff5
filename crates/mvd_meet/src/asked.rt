//! What is asked of a side.
use mvd_remote::Frames;

/// What a window asks for.
#[derive(Clone, Copy)]
pub enum Sort {
    Nodes,
    Pages,
    States,
    Pushes,
}

/// A window that left by mail.
#[derive(Drop)]
pub struct Asked {
    pub(crate) sort: Sort,
    pub(crate) frames: Frames,
}

/// A window of so many requests that is asked at hand.
#[derive(Clone, Copy)]
pub struct Due {
    pub(crate) sort: Sort,
    pub(crate) count: usize,
}
