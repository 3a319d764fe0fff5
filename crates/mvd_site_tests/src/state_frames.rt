//! States, in both versions of the format.
use mvd_dots::Refusal;
use mvd_keys::KeyState;
use mvd_wire::{decode_old_state, decode_state, encode_state, state_length};
use std::alloc::Global;
use std::test::Fail;

/// Site 1, base 1, no loose counter; one sibling 1:1 with {"a":1}.
const STATE: [u8; 45] = [
    0, 0, 0, 1, 0, 0, 0, 1, 0, 0, 0, 0, 0, 0, 0, 1, 0, 0, 0, 0, 0, 1, 0, 0, 0, 1, 0, 0, 0, 0, 0, 0,
    0, 1, 0, 0, 0, 7, 0x7B, 0x22, 0x61, 0x22, 0x3A, 0x31, 0x7D,
];

/// The same in the first version of the format.
const OLD_STATE: [u8; 39] = [
    0, 1, 0, 1, 0, 0, 0, 0, 0, 0, 0, 1, 0, 0, 0, 0, 0, 1, 0, 1, 0, 0, 0, 0, 0, 0, 0, 1, 0, 0, 0, 7,
    0x7B, 0x22, 0x61, 0x22, 0x3A, 0x31, 0x7D,
];

/// Whether a state is spelled so, and has that length.
fn is_spelled(alloc: Global, state: &KeyState, bytes: &[u8]) -> Result<bool, Refusal> {
    let spelled = encode_state(alloc, state)?;
    Ok(spelled.as_slice() == bytes && state_length(state) == bytes.len() as u64)
}

/// Whether the state that the bytes spell is spelled so again.
pub fn comes_back(alloc: Global, bytes: &[u8]) -> Result<bool, Refusal> {
    let state = decode_state(alloc, bytes)?;
    is_spelled(alloc, &state, bytes)
}

/// Whether a state of version 1 is spelled anew so.
fn is_spelled_anew(alloc: Global, old: &[u8], bytes: &[u8]) -> Result<bool, Refusal> {
    let state = decode_old_state(alloc, old)?;
    is_spelled(alloc, &state, bytes)
}

#[test]
fn states_come_back(rt: HostRuntime) -> Result<(), Fail> {
    assert!(rt; comes_back(rt.alloc(), &STATE)? && comes_back(rt.alloc(), &[0; 6])?);
    assert!(rt; is_spelled_anew(rt.alloc(), &OLD_STATE, &STATE)?);
    Ok(())
}
