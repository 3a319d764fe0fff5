//! Frames on a stream.

/// The kind byte and the payload of a frame.
#[derive(Drop)]
pub struct Frame {
    pub kind: u8,
    pub payload: Vec<u8>,
}
