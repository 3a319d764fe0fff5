//! The limits of the format.

/// The greatest length of a spelled state, in bytes.
pub const STATE_LIMIT: u64 = 1_150_000;

/// The same in the first version of the format.
pub const OLD_STATE_LIMIT: u64 = 1_000_000;

/// The greatest length of a document's text, in bytes.
pub const DOCUMENT_LIMIT: u32 = 65_536;

/// The greatest length of a frame behind its length: the kind byte and the payload, in bytes.
pub const FRAME_LIMIT: usize = 1_200_000;

/// The most items of a list in a reply.
pub const PAGE_LIMIT: usize = 1000;
