//! A root, and how long to wait for another.
ghost use Rattle.std.specs.Prelude.{◌≡◌};
ghost use Rattle.hex.specs.Hex.{decode_sized};
ghost use Rattle.mvd_dots.specs.Answer.{IsAnswer};
ghost use Rattle.mvd_http.specs.Asked.{if_given, root_in as root_read, root_asked as root_told, wait_in as wait_read};
ghost use Rattle.mvd_http.specs.Asked.{wait_of as wait_told};

use crate::place::number_in;
use crate::target_parts::decoded;
use mvd_dots::Refusal;
use std::alloc::Global;

/// The most seconds that a response may wait.
const MOST_SECONDS: u64 = 60;

/// The 32 bytes of 64 hexadecimal digits.
fn root_of(digits: &[u8]) -> Result<[u8; 32], Refusal>
    ensures { result ≡ root_told (decode_sized digits.now 32) }
{
    let mut root = [0; 32];
    match hex::decode_to_slice(digits, &mut root) {
        Ok(()) => Ok(root),
        Err(_) => Err(Refusal::BadBody),
    }
}

fn root_in(alloc: Global, part: &[u8]) -> Result<[u8; 32], Refusal>
    ensures { IsAnswer result (root_read part.now) }
{
    let bytes = decoded(alloc, part)?;
    root_of(bytes.as_slice())
}

pub fn root_if_given(alloc: Global, part: &[u8]) -> Result<Option<[u8; 32]>, Refusal>
    ensures { IsAnswer result (if_given root_read part.now) }
{
    if part.is_empty() {
        return Ok(None);
    }
    Ok(Some(root_in(alloc, part)?))
}

fn wait_of(seconds: Option<u64>) -> Result<u32, Refusal>
    ensures { result ≡ wait_told seconds }
{
    match seconds {
        Some(seconds) if seconds <= MOST_SECONDS => Ok(seconds as u32),
        _ => Err(Refusal::BadBody),
    }
}

/// The seconds to wait, or 0.
pub fn wait_in(alloc: Global, part: &[u8]) -> Result<u32, Refusal>
    ensures { IsAnswer result (wait_read part.now) }
{
    if part.is_empty() {
        return Ok(0);
    }
    let bytes = decoded(alloc, part)?;
    wait_of(number_in(bytes.as_slice()))
}
