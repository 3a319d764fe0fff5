//! All of a reader's input, up to a limit, and text to a writer.
ghost use Rattle.std.specs.Prelude.{◌≡◌, ◌<◌, ◌≤◌, ℕ, List, length, IfErr, IfOk, OnOk, Err, string_bytes};
ghost use Rattle.std.specs.Io.KnownBytes.{Appends, Consumes, IsAtEnd};
ghost use Rattle.mvd_dots.specs.declared.refusals.Refusal.TheVariants.{FrameTooLong, WriteFailed};
ghost use Rattle.mvd_input.specs.declared.fault.Fault.TheVariants.{Stopped};
ghost use Rattle.mvd_input.specs.Ends.{EndsEarly, ReadsNot};

use crate::fault::Fault;
use mvd_dots::Refusal;
use std::alloc::Global;
use std::io::{Read, Write};

/// All that the reader has left: `FrameTooLong` where that is more than `most` bytes.
pub fn read_input<R: Read>(alloc: Global, reader: &mut R, most: usize) -> Result<Vec<u8>, Fault>
    ensures short { IfOk result (λ bytes. length bytes.items ≤ most) }
    ensures all { IfOk result (λ bytes. Consumes (R.remaining reader.old) (R.remaining reader.new) bytes.items ×
        IsAtEnd (R.remaining reader.new)) }
    ensures refused { IfErr result ReadsNot }
    ensures long { result ≡ Err (Stopped FrameTooLong) →
        (front : List ℕ) × Consumes (R.remaining reader.old) (R.remaining reader.new) front × (most < length front) }
    ensures ends { IfErr result EndsEarly }
{
    let mut bytes = Vec::new(alloc);
    let mut piece = [0u8; 4096];
    loop {
        let count = match reader.read(&mut piece) {
            Ok(0) => return Ok(bytes),
            Ok(count) => count,
            Err(_) => return Err(Fault::Stopped(Refusal::ReadFailed)),
        };
        if count > most - bytes.len() {
            return Err(Fault::Stopped(Refusal::FrameTooLong));
        }
        bytes.extend_from_slice(&piece[..count])?;
    }
}

/// Writes a text. Where that fails, it is `Stopped` with `WriteFailed`.
pub fn write_out<W: Write>(writer: &mut W, text: &str) -> Result<(), Fault>
    ensures ok { OnOk result (Appends (W.contents writer.old) (W.contents writer.new) text.now) }
    ensures err { IfErr result (λ fault. fault ≡ Stopped WriteFailed) }
    ensures ends { IfErr result EndsEarly }
{
    match writer.write_all(text.as_bytes()) {
        Ok(()) => Ok(()),
        Err(_) => Err(Fault::Stopped(Refusal::WriteFailed)),
    }
}

/// Writes the lines at once, and begins anew.
pub fn tell<W: Write>(writer: &mut W, lines: &mut String) -> Result<(), Fault>
    ensures told { OnOk result (Appends (W.contents writer.old) (W.contents writer.new) (string_bytes lines.old)) }
    ensures failed { IfErr result (λ fault. fault ≡ Stopped WriteFailed) }
    ensures ends { IfErr result EndsEarly }
{
    write_out(writer, lines.as_str())?;
    lines.clear();
    match writer.flush() {
        Ok(()) => Ok(()),
        Err(_) => Err(Fault::Stopped(Refusal::WriteFailed)),
    }
}
