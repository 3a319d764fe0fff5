//! Frames, read from a reader and written to a writer.
ghost use Rattle.std.specs.Prelude.{◌≡◌, ◌≤◌, ◌<◌, ◌+◌, ◌∷◌, ℕ, take, length, ◌⊎◌, IfOk, IfErr, OnOk, OnErr, IfSome};
ghost use Rattle.std.specs.Prelude.{option_map};
ghost use Rattle.std.specs.Int.{w32, from_be_bytes};
ghost use Rattle.std.specs.Io.KnownBytes.{Appends, Consumes, IsAtEnd};
ghost use Rattle.mvd_wire.specs.Frames.{AppendsFront, EndsReading, Reads, frame_value, frame_limit, spell_frame, length_at};
ghost use Rattle.mvd_wire.specs.Frames.{body_at, frame_at};
ghost use Rattle.mvd_wire.specs.Codec.{Codec, number};

use mvd_dots::Refusal;
use mvd_wire::{FRAME_LIMIT, Frame};
use std::alloc::Global;
use std::io::{Read, Write};

/// Writes a frame. After a refusal a front of it was written.
pub fn write_frame<W: Write>(writer: &mut W, frame: &[u8]) -> Result<(), Refusal>
    ensures ok { OnOk result (Appends (W.contents writer.old) (W.contents writer.new) frame.now) }
    ensures front { OnErr result (AppendsFront (W.contents writer.old) (W.contents writer.new) frame.now) }
    ensures err { IfErr result (λ e. e ≡ Refusal.WriteFailed) }
{
    let mut at = 0;
    while at < frame.len() {
        match writer.write(&frame[at..]) {
            Ok(0) => return Err(Refusal::WriteFailed),
            Ok(n) => at += n,
            Err(_) => return Err(Refusal::WriteFailed),
        }
    }
    Ok(())
}

/// Reads until the buffer is full or the reader is at its end, and says how many bytes came.
fn fill<R: Read>(reader: &mut R, buf: &mut [u8]) -> Result<usize, Refusal>
    ensures bound { IfOk result (λ n. n ≤ length buf.new) }
    ensures bytes { IfOk result (λ n. Consumes (R.remaining reader.old) (R.remaining reader.new) (take n buf.new)) }
    ensures end { IfOk result (λ n. n < length buf.new → IsAtEnd (R.remaining reader.new)) }
    ensures err { IfErr result (λ e. e ≡ Refusal.ReadFailed) }
{
    let mut at = 0;
    while at < buf.len() {
        match reader.read(&mut buf[at..]) {
            Ok(0) => return Ok(at),
            Ok(n) => at += n,
            Err(_) => return Err(Refusal::ReadFailed),
        }
    }
    Ok(at)
}

/// Reads that many bytes, or those before the reader's end.
fn read_up_to<R: Read>(alloc: Global, reader: &mut R, count: usize) -> Result<Vec<u8>, Refusal>
    ensures bound { IfOk result (λ v. length v.items ≤ count) }
    ensures bytes { IfOk result (λ v. Consumes (R.remaining reader.old) (R.remaining reader.new) v.items) }
    ensures end { IfOk result (λ v. length v.items < count → IsAtEnd (R.remaining reader.new)) }
    ensures err { IfErr result (λ e. (e ≡ Refusal.Memory) ⊎ (e ≡ Refusal.ReadFailed)) }
{
    let mut bytes = Vec::new(alloc);
    let mut chunk = [0u8; 4096];
    while bytes.len() < count {
        let wanted = (count - bytes.len()).min(4096);
        let part = &mut chunk[..wanted];
        let came = fill(reader, part)?;
        bytes.extend_from_slice(&part[..came])?;
        if came < wanted {
            return Ok(bytes);
        }
    }
    Ok(bytes)
}

/// The number that four bytes spell.
fn number_of(head: &[u8; 4]) -> u32
    ensures value { result ≡ from_be_bytes w32 head.now }
    ensures spelled { (number w32).spell result ≡ head.now }
{
    u32::from_be_bytes(*head)
}

/// The length of the next frame, or nothing where the reader is at its end.
#[tactic(auto, unfolding(mvd_wire::specs::Frames::length_at))]
fn read_length<R: Read>(reader: &mut R) -> Result<Option<u32>, Refusal>
    ensures read { Reads (λ n. n) (R.remaining reader.old) (R.remaining reader.new) result length_at }
    ensures some { IfOk result (λ o. IfSome o (λ n. 1 ≤ n)) }
    ensures few { IfOk result (λ o. IfSome o (λ n. n ≤ frame_limit)) }
    ensures spelled { IfOk result
        (λ o. IfSome o (λ n. Consumes (R.remaining reader.old) (R.remaining reader.new) ((number w32).spell n))) }
    ensures err { IfErr result EndsReading }
{
    let mut head = [0u8; 4];
    let came = fill(reader, &mut head)?;
    if came == 0 {
        return Ok(None);
    }
    if came < 4 {
        return Err(Refusal::Truncated);
    }
    let length = number_of(&head);
    if length == 0 || length as usize > FRAME_LIMIT {
        return Err(Refusal::FrameTooLong);
    }
    Ok(Some(length))
}

/// The kind and the payload of a frame, of a length together.
#[tactic(auto, unfolding(mvd_wire::specs::Frames::body_at))]
fn read_body<R: Read>(alloc: Global, reader: &mut R, size: u32) -> Result<Frame, Refusal>
    requires { 1 ≤ size }
    ensures read { Reads frame_value (R.remaining reader.old) (R.remaining reader.new) result (body_at size) }
    ensures len { IfOk result (λ f. length f.payload.items + 1 ≡ size) }
    ensures spelled { IfOk result
        (λ f. Consumes (R.remaining reader.old) (R.remaining reader.new) (f.kind ∷ f.payload.items)) }
    ensures err { IfErr result EndsReading }
{
    let mut kind = [0u8; 1];
    if fill(reader, &mut kind)? < 1 {
        return Err(Refusal::Truncated);
    }
    let count = (size - 1) as usize;
    let payload = read_up_to(alloc, reader, count)?;
    if payload.len() < count {
        return Err(Refusal::Truncated);
    }
    Ok(Frame {
        kind: kind[0],
        payload,
    })
}

/// Reads one frame, and leaves what follows it unread. It is `None` where the input ends before a frame's first byte.
#[tactic(auto, unfolding(mvd_wire::specs::Frames::frame_at))]
pub fn read_frame<R: Read>(alloc: Global, reader: &mut R) -> Result<Option<Frame>, Refusal>
    ensures read { Reads (option_map frame_value) (R.remaining reader.old) (R.remaining reader.new) result frame_at }
    // What was read is the spelling of the frame, which is short enough to be sent again.
    ensures spelled { IfOk result
        (λ o. IfSome o (λ f.
        Consumes (R.remaining reader.old) (R.remaining reader.new) (spell_frame (frame_value f)))) }
    ensures few { IfOk result (λ o. IfSome o (λ f. length f.payload.items + 1 ≤ frame_limit)) }
    ensures err { IfErr result EndsReading }
{
    match read_length(reader)? {
        None => Ok(None),
        Some(length) => Ok(Some(read_body(alloc, reader, length)?)),
    }
}
