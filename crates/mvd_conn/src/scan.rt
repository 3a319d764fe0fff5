//! What stands at the front of the input.
ghost use Rattle.std.specs.Prelude.{◌≡◌, ◌≤◌, ◌&&◌, if◌then◌else◌, Some, length, nat_le, nat_lt, take};
ghost use Rattle.std.specs.Int.{from_be_bytes, w32};
ghost use Rattle.mvd_wire.specs.declared.ending.Ending.TheVariants as Ending;
ghost use Rattle.mvd_conn.specs.History.{is_bye, most_of};
ghost use Rattle.mvd_conn.specs.Front.{IsFront};

use mvd_dots::Refusal;
use mvd_wire::{Ending, FRAME_LIMIT};

/// The most bytes that the length of a Hello counts: its kind, the length of the token, and the token.
const HELLO_LIMIT: u32 = 259;

/// The longest reply, in bytes.
const FRAME_MAX: usize = 1_200_004;

/// The longest short reply, in bytes.
pub(crate) const SHORT_MAX: usize = 17;

/// A row, in bytes.
const ROW_MAX: usize = 46;

/// The digests of a node with sixteen children, in bytes.
const NODE_MAX: usize = 550;

/// What bytes begin with.
#[derive(Clone, Copy)]
pub enum Front {
    /// A whole frame, of so many bytes with its length.
    Whole(usize),
    /// A part of a frame, or nothing.
    Part,
    /// A length that no frame has.
    TooLong,
}

/// What comes next of a connection.
#[derive(Clone, Copy)]
pub(crate) enum Found {
    /// A whole frame, of so many bytes with its length.
    Frame(usize),
    /// The end, after a frame.
    End,
    /// An end with this refusal.
    Stops(Refusal),
    /// Nothing, until more bytes come.
    Nothing,
}

/// Looks at the front of the bytes. It reads four of them.
pub fn front_of(bytes: &[u8]) -> Front
    ensures { IsFront bytes.now result }
{
    if bytes.len() < 4 {
        return Front::Part;
    }
    let mut head = [0u8; 4];
    head.copy_from_slice(&bytes[..4]);
    let length = u32::from_be_bytes(head) as usize;
    if length == 0 || length > FRAME_LIMIT {
        return Front::TooLong;
    }
    if bytes.len() - 4 < length {
        return Front::Part;
    }
    Front::Whole(4 + length)
}

/// Whether the bytes begin with the length of a frame that is longer than any Hello.
pub(crate) fn is_over_hello(bytes: &[u8]) -> bool
    ensures { result ≡ (nat_le 4 (length bytes.now) && nat_lt 259 (from_be_bytes w32 (take 4 bytes.now))) }
{
    if bytes.len() < 4 {
        return false;
    }
    let mut head = [0u8; 4];
    head.copy_from_slice(&bytes[..4]);
    u32::from_be_bytes(head) > HELLO_LIMIT
}

/// Why no frame is taken after this one, or what was known of that before.
pub(crate) fn last_after(kind: u8, payload: &[u8], last: Option<Ending>) -> Option<Ending>
    ensures { result ≡ (if is_bye (record { kind = kind; payload = payload.now }) then Some Ending.Bye else last) }
{
    if kind == 0x2F && payload.is_empty() {
        Some(Ending::Bye)
    } else {
        last
    }
}

/// The most bytes that the reply to a frame of this kind has. That to a Put, a Delete, a Push, a Hello and a Bye is short.
pub(crate) fn most_of(kind: u8) -> usize
    ensures is { result ≡ most_of kind }
    ensures least { 17 ≤ result }
    ensures most { result ≤ 1200004 }
{
    match kind {
        0x22 | 0x23 | 0x29 | 0x2D | 0x2F => SHORT_MAX,
        0x25 => ROW_MAX,
        0x27 => NODE_MAX,
        _ => FRAME_MAX,
    }
}
