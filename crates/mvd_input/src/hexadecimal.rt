//! Lines of hexadecimal digits.
ghost use Rattle.std.specs.Prelude.{◌≡◌, ◌<◌, ◌≤◌, ◌+◌, ◌++◌, ◌∷◌, ◌⊎◌, List, ℕ, Ok, length, IfErr, IfOk, IfSome};
ghost use Rattle.std.specs.Prelude.{MatchResult};
ghost use Rattle.std.specs.Option.{option_copied};
ghost use Rattle.hex.specs.Hex.{decode_of};
ghost use Rattle.mvd_dots.specs.declared.refusals.Refusal.TheVariants.{Memory};
ghost use Rattle.mvd_dots.specs.declared.refusals.Refusal.TheVariants as refusals;
ghost use Rattle.mvd_input.specs.declared.fault.Fault.TheVariants.{Stopped};
ghost use Rattle.mvd_input.specs.declared.fault.Fault.TheVariants as faults;
ghost use Rattle.mvd_input.specs.Hexadecimal.{AreJoined, HasFault, IsNoHexadecimal, SpellsTooMany, lines_after, lines_of};

use crate::fault::Fault;
use hex::FromHexError;
use mvd_dots::Refusal;
use std::alloc::Global;

/// The most bytes of an input of hexadecimal lines.
pub const HEX_MAX: usize = 131_072;

/// The most bytes that its lines may spell.
pub const BYTES_MAX: usize = 32_768;

/// The bytes that lines of hexadecimal digits spell, one line after the other.
///
/// It is `Stopped` with `FrameTooLong` where the text has over 131,072 bytes. Else the first line that is at fault
/// decides: `Line` where it is no hexadecimal, and `FrameTooLong` where its bytes with those before it are over
/// 32,768.
pub fn hex_bytes(alloc: Global, text: &[u8]) -> Result<Vec<u8>, Fault>
    ensures joined { IfOk result (λ bytes. AreJoined text.now bytes.items) }
    ensures fault { IfErr result (HasFault text.now) }
{
    if text.len() > HEX_MAX {
        return Err(Fault::Stopped(Refusal::FrameTooLong));
    }
    let mut bytes = Vec::new(alloc);
    let mut number: u64 = 0;
    let mut rest = Some(text);
    while let Some(lines) = rest {
        let (line, after) = first_line(lines);
        number += 1;
        match add_line(alloc, number, line, &mut bytes) {
            Ok(()) => rest = after,
            Err(fault) => return Err(fault),
        }
    }
    Ok(bytes)
}

/// The first line of a text, and what follows its line feed, if it has one.
pub fn first_line(text: &[u8]) -> (&[u8], Option<&[u8]>)
    ensures cut { lines_of text.now ≡ result.0.now ∷ lines_after (option_copied result.1) }
    ensures shorter { IfSome result.1 (λ after. length after.now < length text.now) }
{
    match text.iter().position(|byte| *byte == b'\n') {
        Some(at) => (&text[..at], Some(&text[at + 1..])),
        None => (text, None),
    }
}

/// Adds the bytes that a line of this number spells.
fn add_line(alloc: Global, number: u64, line: &[u8], bytes: &mut Vec<u8>) -> Result<(), Fault>
    requires { length bytes.old.items ≤ 32768 }
    ensures { MatchResult result
        (λ _. (more : List ℕ) × (decode_of line.now ≡ Ok more) × (bytes.new.items ≡ bytes.old.items ++ more) ×
        (length bytes.new.items ≤ 32768))
        (λ fault. (fault ≡ Stopped Memory) ⊎
        (((fault ≡ faults.Line number) × IsNoHexadecimal line.now) ⊎
        ((fault ≡ Stopped refusals.FrameTooLong) × SpellsTooMany line.now bytes.old.items))) }
{
    match hex::decode(alloc, line) {
        Ok(more) => {
            if more.len() > BYTES_MAX - bytes.len() {
                return Err(Fault::Stopped(Refusal::FrameTooLong));
            }
            bytes.extend_from_slice(&more)?;
            Ok(())
        }
        Err(FromHexError::OutOfMemory) => Err(Fault::Stopped(Refusal::Memory)),
        Err(_) => Err(Fault::Line(number)),
    }
}
